// No code: document 01's starred examples as one table (specs/), proved as one theorem, and what else is computed by value (proofs/).
#![tactic(auto)]
