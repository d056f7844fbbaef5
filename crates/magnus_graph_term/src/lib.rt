// One term of the Taylor sum of order 4 (magnus_graph_helpers.rs; 01, part 6).
#![tactic(auto)]

pub mod kernel;
