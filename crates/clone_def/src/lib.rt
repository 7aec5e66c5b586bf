// A clone: its refusals and its plan: definitions and laws, without code.
#![tactic(auto)]
