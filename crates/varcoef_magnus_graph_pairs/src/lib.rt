// The walks of a weighted step whose two samples lie as pairs (magnus_graph_adjoint.rs; 01, parts 5 to 7).
#![tactic(auto)]

pub mod kernel;
