// What C2 of order 6 at a vector takes of its products: W x, and their sum.
#![tactic(auto)]

pub mod kernel;
