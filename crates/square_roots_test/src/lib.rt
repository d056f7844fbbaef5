// Whether the values of a vector are the square roots of another, all of them (01, part 4).
#![tactic(auto)]

pub mod kernel;
