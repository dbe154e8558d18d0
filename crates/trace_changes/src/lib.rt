// What a call changed, from the tables before it and after it: the line of a record in the trace (docs/TRACE.md), as definitions in specs/, and what
// follows from them in proofs/. The code is in the crates above.
#![tactic(auto)]

use rules::{Answer, Call, Thread};

// A call that was made: the record's number, the call, its answer and the thread that runs then.
#[derive(Clone, Copy)]
pub struct Made {
    pub n: u64,
    pub asked: Call,
    pub answer: Answer,
    pub thread: Thread,
}
