// The Gershgorin bound of a Laplacian (graph_assemble_helpers.rs).
#![tactic(auto)]

pub mod kernel;
