// Sums of vectors within one lent work slice (scratch.rs, graph_signal.rs).
#![tactic(auto)]

pub mod kernel;
