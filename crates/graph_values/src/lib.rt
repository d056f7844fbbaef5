// The check of a Laplacian's values (graph.rs): row 5 of document 01's table.
#![tactic(auto)]

pub mod kernel;
