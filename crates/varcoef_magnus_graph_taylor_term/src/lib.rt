// A term of the Taylor sum of a weighted step of order 4, for callers that have checked its arguments (varcoef_magnus_graph.rs; 01, part 7).
#![tactic(auto)]

pub mod kernel;
