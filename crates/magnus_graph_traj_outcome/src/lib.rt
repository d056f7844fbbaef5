// What a run along a trajectory answers and leaves, and what demand 3 says of it: definitions and their laws.
#![tactic(auto)]
