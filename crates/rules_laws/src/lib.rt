// What is true of the definitions of `rules`: no code, laws in proofs/.
#![tactic(auto)]
