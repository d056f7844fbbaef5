// The steps of a run along a trajectory: which they are, what each does, and what has been done after some of them (01, parts 8 and
// 10). Definitions and their laws.
#![tactic(auto)]
