// Whether a value is the square root of another, as IEEE 754 has it (01, part 4), without a branch.
#![tactic(auto)]

pub mod kernel;
