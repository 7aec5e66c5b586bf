// A punch: where it starts, which sectors it cuts and rewrites: definitions and laws, without code.
#![tactic(auto)]
