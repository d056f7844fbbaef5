// The steps of a weighted run along a trajectory: the weights at its samples, what each step answers and does, and what that is by the law
// of the segment (01, parts 7, 8 and 10). Definitions and their laws.
#![tactic(auto)]
