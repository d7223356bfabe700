// Rows of clear straights for all marks, by any notion of clear. They stand in specs/ and proofs/: the code that makes rows is in `adjacency` and `clear_rows`.
#![tactic(auto)]
