// Demand 3 and requests No. 4, No. 8 and No. 12 in worked examples that meet every premise, and statements that say more, each denied: no code.
#![tactic(auto)]
