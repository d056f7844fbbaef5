// The digits of the numbers that the job program prints (01, "The job program").
#![tactic(auto)]

pub mod kernel;
