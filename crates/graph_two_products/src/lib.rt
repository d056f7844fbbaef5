// The products of two samples with one vector of a work slice.
#![tactic(auto)]

pub mod kernel;
