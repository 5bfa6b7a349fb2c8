// No code: what proofs by hand repeat, for every crate that has some (proofs/Walk.antt).
#![tactic(auto)]
