// The text of an answer (01, "The job program").
#![tactic(auto)]

pub mod kernel;
