// Small duct yards are theorems about the definitions: proofs/Trials.antt.
#![tactic(auto)]
