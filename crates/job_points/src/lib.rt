// Document 01's job, computed from the definitions: proofs/Shown.antt.
#![tactic(auto)]
