// No code: wrong servers as definitions in specs/, and the examples, scripts and clauses that refuse them in proofs/.
#![tactic(auto)]
