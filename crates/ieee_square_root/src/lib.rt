// IEEE 754's squareRoot for any format (01, part 4), that its result is the nearest value of the format, and what the steps of the square root
// promise: definitions and laws, no code.
#![tactic(auto)]
