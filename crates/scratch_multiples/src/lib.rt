// Multiples of vectors and of their differences within one lent work slice (scratch.rs).
#![tactic(auto)]

pub mod kernel;
