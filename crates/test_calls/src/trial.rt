// One call by both entries: by value, and in place on lent tables.
ghost use Rattle.test_same.specs.Tells.{Tells};
ghost use Rattle.test_calls.specs.Trial.{Alike, BothWays};

use super::in_place;
use super::in_place::InPlace;
use rules::{Call, Step, Tables};
use test_same::{same_answer, same_tables, same_thread};

// What the call by value left, what the call in place left, and whether the two say the same in everything.
// Stays a flag beside the steps: `BothWays` and `call_text` name it, and the steps are handed on either way.
#[derive(Clone, Copy)]
pub struct Tried {
    pub step: Step,
    pub in_place: Step,
    pub agrees: bool,
}

// The answers and the tables are the same, and so are the threads: the two that the calls gave, and the two that run in what they left.
fn agrees(step: Step, left: InPlace) -> bool
    ensures { Tells result (Alike step left.step left.running) }
{
    let other = left.step;
    same_answer(step.answer, other.answer)
        & same_thread(step.thread, other.thread)
        & same_thread(step.thread, left.running)
        & same_thread(step.thread, entries::thread_of(step.tables))
        & same_tables(step.tables, other.tables)
}

// One call by both entries: by value on `t`, in place on `u`.
pub fn try_call(t: Tables, u: Tables, q: Call) -> Tried
    ensures { BothWays t u q result }
{
    let step = entries::call(t, q);
    let left = in_place::call(u, q);
    let agrees = agrees(step, left);
    Tried {
        step,
        in_place: left.step,
        agrees,
    }
}
