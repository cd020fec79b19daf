// No code: the router with free choices (specs/), and the history theorem of it, demand 3 (proofs/).
#![tactic(auto)]
