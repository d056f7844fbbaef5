// A segment of a trajectory in a run (graph_traj.rs): the value that the run passes on from step to step, and its times.
#![tactic(auto)]

pub mod kernel;
