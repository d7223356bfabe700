// What contractors are promised, and that the calls in their names keep it, stand in specs/ and proofs/; no code is needed for them.
#![tactic(auto)]
