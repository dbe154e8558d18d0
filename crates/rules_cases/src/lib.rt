// Document 01's worked cases, computed from the definitions: no code.
#![tactic(auto)]
