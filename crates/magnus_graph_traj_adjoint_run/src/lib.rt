// The loop of the unweighted adjoint run along a trajectory (magnus_graph_adjoint.rs; 01, part 8).
#![tactic(auto)]

pub mod kernel;
