// The records of a yard file and how each version writes them stand in specs/ and proofs/; no code is needed for it.
#![tactic(auto)]
