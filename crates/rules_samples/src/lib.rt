// Document 01's easy mistakes, waiters, logs and unsound tables as worked examples, computed from the definitions: no code.
#![tactic(auto)]
