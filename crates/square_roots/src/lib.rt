// The square roots of vectors, as IEEE 754 has them (01, parts 4 and 5).
#![tactic(auto)]

pub mod kernel;
