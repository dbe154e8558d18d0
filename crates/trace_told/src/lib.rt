// That what the trace tells of a call is what the rules did: no code.
#![tactic(auto)]
