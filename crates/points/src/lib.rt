// Document 01's "Points to meet" that are shown of the definitions: specs/Points.antt has their table, proofs/Shown.antt the theorem.
#![tactic(auto)]
