// Products with two samples of one pattern at once: one walk over a row reads the pattern for both. `paired` says how the two samples' values may
// lie, and two vectors of which one goes to each sample.
#![tactic(auto)]

pub mod kernel;
pub mod paired;
