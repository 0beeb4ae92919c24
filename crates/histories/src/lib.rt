//! What holds of every run of a reference monitor, whatever the roll and the calls: statements and their proofs, and no code.
#![tactic(auto)]
