// Whether a whole number is the digits of a square root (01, part 4), without a branch.
#![tactic(auto)]

pub mod kernel;
