// The arithmetic in which every formula of the crates above is written, and the row product and the signal sum in it:
// definitions in specs/, laws in proofs/. The crate has no code.
#![tactic(auto)]
