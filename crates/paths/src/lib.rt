// The mathematics of least chains stands in specs/ and proofs/; no code is needed for it.
#![tactic(auto)]
