// The end of a run (magnus_graph.rs, magnus_graph_adjoint.rs): what is held after its last step becomes the output.
#![tactic(auto)]

pub mod kernel;
