// No code: the farm's servers and phones as definitions in specs/, and what holds in every run in proofs/.
#![tactic(auto)]
