// The loops of the forward run along a trajectory, and the step of the unweighted runs (magnus_graph.rs; 01, parts 8 and 10).
#![tactic(auto)]

pub mod kernel;
