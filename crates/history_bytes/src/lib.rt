// A step on bytes, and that it decodes to the definitions' step: definitions and laws, without code.
#![tactic(auto)]
