// One step of the weighted adjoint run along a trajectory (magnus_graph_adjoint.rs; 01, parts 7, 8 and 10).
#![tactic(auto)]

pub mod kernel;
