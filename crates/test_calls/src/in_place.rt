// Calls in place: tables by value are put into a variable, which is lent to the entry.
ghost use Rattle.runs.specs.CallList.{handed};
ghost use Rattle.demands.specs.Lists.{PromisedList};
ghost use Rattle.test_calls.specs.Trial.{Left};

use rules::{Call, Step, Tables, Thread};

// What a call left, and the thread that runs in the lent tables.
#[derive(Clone, Copy)]
pub(crate) struct InPlace {
    pub(crate) step: Step,
    pub(crate) running: Thread,
}

// One call.
pub(crate) fn call(t: Tables, q: Call) -> InPlace
    ensures { Left t q result }
{
    let mut tables = t;
    let said = entries::call_in_place(&mut tables, q);
    InPlace {
        step: Step {
            tables,
            answer: said.answer,
            thread: said.thread,
        },
        running: entries::thread(&tables),
    }
}

// Many calls at once, with room for their answers.
pub fn call_list(t: Tables, calls: &[u32], answers: &mut [u32]) -> Step
    ensures { PromisedList t calls.now answers.old (handed result.tables answers.new result.answer result.thread) }
{
    let mut tables = t;
    let said = entries::call_list(&mut tables, calls, answers);
    Step {
        tables,
        answer: said.answer,
        thread: said.thread,
    }
}
