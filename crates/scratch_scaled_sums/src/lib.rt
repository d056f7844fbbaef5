// Multiples of vectors within one lent work slice, added to others (scratch.rs, graph_signal.rs).
#![tactic(auto)]

pub mod kernel;
