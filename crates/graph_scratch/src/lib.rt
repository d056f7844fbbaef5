// Row products within a work slice (graph.rs, scratch.rs).
#![tactic(auto)]

pub mod kernel;
