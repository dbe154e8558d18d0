// That no post on a counting semaphore is lost (request No. 12), over any sequence of calls: no code.
#![tactic(auto)]
