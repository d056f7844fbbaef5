// One step of an unweighted run along a trajectory (magnus_graph.rs; 01, parts 8 and 10).
#![tactic(auto)]

pub mod kernel;
