// Little-endian numbers within bytes, as stored lists and jobs have them.
#![tactic(auto)]

pub mod kernel;
