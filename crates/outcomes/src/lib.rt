// No code: for each public function of the libraries, that its contract leaves one outcome for each input (proofs/).
#![tactic(auto)]
