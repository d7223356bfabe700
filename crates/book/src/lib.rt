// The plain book and demand 3 stand in specs/ and proofs/; no code is needed for them.
#![tactic(auto)]
