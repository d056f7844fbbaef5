// The coefficients of a Taylor sum (magnus_graph_helpers.rs; 01, part 6).
#![tactic(auto)]

pub mod kernel;
