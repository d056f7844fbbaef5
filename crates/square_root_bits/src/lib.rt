// The square root of a value above zero from its bits (01, part 4): they are taken apart, the exponent is halved and the root put together.
#![tactic(auto)]

pub mod kernel;
