// The worked examples of document 01: definitions and one theorem.
#![tactic(auto)]
