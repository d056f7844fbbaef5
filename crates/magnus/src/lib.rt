// The Magnus formulas of orders 4 and 6 over any arithmetic, the published formulas, and the theorems that tie them: definitions and laws, no code.
#![tactic(auto)]
