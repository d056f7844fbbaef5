// The commutator C1 of order 6 at a vector (magnus6_graph_helpers.rs).
#![tactic(auto)]

pub mod kernel;
