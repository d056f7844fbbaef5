// The parts of Ωv of order 6 (magnus6_graph_helpers.rs): what each leaves in the work slice, and B1, B2 and B3 at a vector.
#![tactic(auto)]

pub mod kernel;
