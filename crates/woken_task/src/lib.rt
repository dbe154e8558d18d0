// That a post's value is the task that it woke (request No. 8), at semaphores, events and mailboxes: no code.
#![tactic(auto)]
