// The digits of a square root, as a whole number: found from a guess, or by halving an interval.
#![tactic(auto)]

pub mod kernel;
