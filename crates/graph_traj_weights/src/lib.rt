// The weights of the two samples of a step under law 2: `kernel`, their formation with row 11.
#![tactic(auto)]

pub mod kernel;
