// The text that the job program prints (01, "The job program"), as it is written: bytes and numbers, one behind the other.
#![tactic(auto)]

pub mod kernel;
