// The check of a Laplacian's columns (graph.rs): row 4 of document 01's table.
#![tactic(auto)]

pub mod kernel;
