// The step of order 4 for callers that have checked its arguments (magnus_graph_helpers.rs; 01, part 6).
#![tactic(auto)]

pub mod kernel;
