// Demand 3: one theorem over every list of calls. Definitions and proofs; no code.
#![tactic(auto)]
