// The laws of rounded arithmetic (IEEE 754) on which demand 3 of document 01 rests: definitions in specs/, theorems in
// proofs/. The crate has no code.
#![tactic(auto)]
