// The faults of the step of order 6 in the order of document 01, and what a step without a fault has: definitions and their laws.
#![tactic(auto)]
