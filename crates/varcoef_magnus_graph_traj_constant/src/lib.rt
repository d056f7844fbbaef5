// A step of the weighted adjoint run with one list for both samples: `kernel`, its Ω.
#![tactic(auto)]

pub mod kernel;
