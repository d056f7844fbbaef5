// Sums over the rows of a Laplacian (graph.rs): the row product.
#![tactic(auto)]

pub mod kernel;
