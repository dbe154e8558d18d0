// Calls one after the other: definitions alone, no code.
#![tactic(auto)]
