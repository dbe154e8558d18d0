// The entries: any tables, any number, any arguments. What they promise of a call is `Promised`, and of a list of calls `PromisedList` (demands/specs): the
// whole answer, demand 1, and from sound tables demand 2. On lent tables that is said by specs/InPlace.
#![tactic(auto)]

ghost use Rattle.std.specs.Prelude.{◌≡◌, ◌*◌, ◌≤◌, length};
ghost use Rattle.rules.specs.Answer.{answer};
ghost use Rattle.rules.specs.Fresh.{made_fresh};
ghost use Rattle.rules.specs.Refusals.{code};
ghost use Rattle.rules.specs.Sound.{Sound};
ghost use Rattle.rules.specs.Step.{step_of};
ghost use Rattle.rules.specs.declared.Thread.TheVariants.{Task};
ghost use Rattle.runs.specs.CallList.{calls_in, calls_of, answer_words};
ghost use Rattle.demands.specs.One.{thread_of};
ghost use Rattle.demands.specs.Promised.{Promised};
ghost use Rattle.kernel.specs.Safe.{Safe};
ghost use Rattle.call_lists.specs.Made.{ListMade};
ghost use Rattle.entries.specs.InPlace.{PromisedInPlace, ListPromisedInPlace};

use kernel::Said;
use rules::{Answer, Call, Refusal, Step, Tables, Thread};

// Fresh tables with 16 levels or 32: they are sound. No. 14: 'fresh tables asked for with other levels are 4 and come with 16'.
pub fn fresh(levels: u32) -> Step
    ensures value { result ≡ made_fresh levels }
    ensures safe { Safe result.tables }
{
    if (levels == rules::numbers::FEW_LEVELS) | (levels == rules::numbers::MOST_LEVELS) {
        return Step {
            tables: tables::fresh(levels),
            answer: answers::accepted(rules::numbers::DONE, 0),
            thread: Thread::Task(0),
        };
    }
    Step {
        tables: tables::fresh(rules::numbers::FEW_LEVELS),
        answer: Answer::from(Refusal::BadArgument),
        thread: Thread::Task(0),
    }
}

// What is said of a refusal, with the thread that runs.
fn refused(refusal: Refusal, thread: Thread) -> Said
    ensures { (result.answer ≡ answer (code refusal) 0 0) × (result.thread ≡ thread) }
{
    Said {
        answer: Answer::from(refusal),
        thread,
    }
}

// What is said of tables that are not sound: code 10, and T0.
fn unsound() -> Said
    ensures { (result.answer ≡ answer 10 0 0) × (result.thread ≡ Task 0) }
{
    refused(Refusal::Unsound, Thread::Task(0))
}

// One call on lent tables: they are tested first, and nothing changes where they are not sound.
pub fn call_in_place(t: &mut Tables, q: Call) -> Said
    ensures { PromisedInPlace t.old q t.new result }
{
    if !sound::is_sound(t) {
        return unsound();
    }
    kernel::step(t, q)
}

// The calls of a list one after the other, refused ones included, each with its answer.
fn make_calls(t: &mut Tables, calls: &[u32], answers: &mut [u32])
    ensures { Sound t.old
        → calls_in (length calls.now) * answer_words ≤ length answers.old
        → ListMade t.old (calls_of calls.now) answers.old t.new answers.new }
{
    for i in 0..calls.len() / call_lists::CALL_WORDS {
        let said = kernel::step(t, call_lists::call_at(calls, i));
        call_lists::put_answer(answers, i, said.answer);
    }
}

// Many calls at once on lent tables, which are tested once: up to 256 calls, five words to a call, and three words for the answer to each (request No. 4).
// Code 10 where they are not sound, then code 4 where the list is bad; nothing is done then.
pub fn call_list(t: &mut Tables, calls: &[u32], answers: &mut [u32]) -> Said
    ensures { ListPromisedInPlace t.old calls.now answers.old t.new answers.new result }
{
    let sound = sound::is_sound(t);
    let bad = call_lists::is_bad(calls.len(), answers.len());
    let running = dispatch::running(&t.lines, &t.state);
    if !sound {
        return unsound();
    }
    if bad {
        return refused(Refusal::BadArgument, running);
    }
    make_calls(t, calls, answers);
    let last = dispatch::running(&t.lines, &t.state);
    Said {
        answer: answers::accepted(rules::numbers::DONE, 0),
        thread: last,
    }
}

// One call on tables by value.
pub fn call(t: Tables, q: Call) -> Step
    ensures { Promised t q result }
{
    let mut tables = t;
    let said = call_in_place(&mut tables, q);
    Step {
        tables,
        answer: said.answer,
        thread: said.thread,
    }
}

// The running thread of lent tables: T0 where they are not sound.
pub fn thread(t: &Tables) -> Thread
    ensures { result ≡ thread_of t.now }
{
    if sound::is_sound(t) {
        return dispatch::running(&t.lines, &t.state);
    }
    Thread::Task(0)
}

// The running thread of tables by value.
pub fn thread_of(t: Tables) -> Thread
    ensures { result ≡ thread_of t }
{
    thread(&t)
}
