// Request No. 4: what is shown of calls holds of any mixture of single calls and lists of calls: no code.
#![tactic(auto)]
