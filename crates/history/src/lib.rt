// No code: the link between the rules and the free router (proofs/), and demand 3 of the router that steps (specs/).
#![tactic(auto)]
