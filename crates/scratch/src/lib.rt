// Vectors within one lent work slice. The Rust lends each work vector from its ScratchPool (scratch.rs); here one slice
// is lent, and a vector of n places lies in it at an index.
#![tactic(auto)]

pub mod kernel;
