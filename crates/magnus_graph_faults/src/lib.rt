// The faults of the steps of order 4 in the order of document 01, and what a step without a fault has: definitions and their laws.
#![tactic(auto)]
