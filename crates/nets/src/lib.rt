// The mathematics of paths in a net stands in specs/ and proofs/; no code is needed for it.
#![tactic(auto)]
