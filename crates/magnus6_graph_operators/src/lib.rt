// The operators of the last commutator of order 6 at a vector (magnus6_graph_helpers.rs).
#![tactic(auto)]

pub mod kernel;
