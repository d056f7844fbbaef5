// What a weighted step of order 4 answers and leaves, and what demand 3 says of it: definitions and their laws.
#![tactic(auto)]
