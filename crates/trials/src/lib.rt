// The trial yards of specs/Table.antt are proved as one table: proofs/Trials.antt.
#![tactic(auto)]
