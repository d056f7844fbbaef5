// The number and the values of a refusal, as the job program prints them (01, "The job program").
#![tactic(auto)]

pub mod kernel;
