// A fallocate: the holes that it fills, the old end that it rewrites: definitions and laws, without code.
#![tactic(auto)]
