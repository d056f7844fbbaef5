// What the steps share (magnus_graph_helpers.rs): Ωv of order 4 from its products.
#![tactic(auto)]

pub mod factors;
pub mod kernel;
