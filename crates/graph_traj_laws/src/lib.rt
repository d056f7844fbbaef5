// The laws of a segment's values (graph_traj.rs): the value of law 2, and the list that law 0 or 1 names.
#![tactic(auto)]

pub mod kernel;
