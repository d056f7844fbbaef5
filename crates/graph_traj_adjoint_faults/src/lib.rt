// The faults of the adjoint runs in the order of document 01, before any step, and what a run without a fault has: definitions and their laws.
#![tactic(auto)]
