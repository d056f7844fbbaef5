// Demand 3 (01) over the formulas of orders 4 and 6: whether every number formed is finite, when samples agree, the plain sum, and that a step is
// it: definitions and laws, no code.
#![tactic(auto)]
