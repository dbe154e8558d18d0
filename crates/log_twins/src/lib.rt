// That a log of version 2 with low priorities replays as its version 1 twin: no code.
#![tactic(auto)]
