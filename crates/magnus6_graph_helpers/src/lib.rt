// The step of order 6 for callers that have checked its arguments (magnus6_graph_helpers.rs; 01, part 9).
#![tactic(auto)]

pub mod kernel;
