// Words on lists and laws about loops over arrays, for the contracts and proofs above. No code.
#![tactic(auto)]
