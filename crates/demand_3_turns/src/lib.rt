// That a call leaves every other task its place: proofs alone, no code.
#![tactic(auto)]
