// No code: what follows from the server's rules, whatever the state and the event, in proofs/.
#![tactic(auto)]
