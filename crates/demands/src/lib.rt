// The customer's demands as theorems over the definitions: no code.
#![tactic(auto)]
