// Demand 1: every refusal in its case, row by row of the table: no code.
#![tactic(auto)]
