// The Taylor sum of a step, over any Ω (magnus_graph_helpers.rs, magnus6_graph_helpers.rs; 01, parts 6, 7 and 9).
#![tactic(auto)]

pub mod kernel;
