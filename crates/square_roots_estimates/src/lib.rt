// Estimates of the square roots of vectors, and their square roots from any guesses (01, parts 4 and 5).
#![tactic(auto)]

pub mod kernel;
