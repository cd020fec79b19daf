// No code: the list of a file, from document 01 alone (specs/), and the theorem that the run entry writes exactly that (proofs/).
#![tactic(auto)]
