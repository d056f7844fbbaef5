// The checks of the forward run (`validate_traj_inputs` of magnus_graph_helpers.rs and the validation of the run's driver), in document
// 01's order, before any step.
#![tactic(auto)]

pub mod check;
