// The samples of law 2 in a run along a trajectory: both samples of a step at once, and row 20 of them.
#![tactic(auto)]

pub mod kernel;
