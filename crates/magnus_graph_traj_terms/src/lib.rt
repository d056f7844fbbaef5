// The Taylor sum of a step of an unweighted run: `kernel`, with both samples as pairs and with one list.
#![tactic(auto)]

pub mod kernel;
