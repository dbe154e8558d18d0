// The call core on lent tables: one call, dispatch after an accepted one, and the thread that runs then. Sound tables stay sound. Whoever does not know
// that his tables are sound makes calls by an entry, which tests them.
#![tactic(auto)]

pub mod ranges;

ghost use Rattle.std.specs.Prelude.{◌≡◌};
ghost use Rattle.rules.specs.Refusals.{answer_said};
ghost use Rattle.rules.specs.Sound.{Sound};
ghost use Rattle.rules.specs.Step.{step, step_of};
ghost use Rattle.kernel.specs.Quick.{quick_step};
ghost use Rattle.kernel.specs.Safe.{Safe, Stepped};
ghost use Rattle.rules.specs.Answer.{Words, ◌by◌};
ghost use Rattle.rules.specs.declared.Tables.{Tables};

use rules::{Answer, Call, Refusal, Tables, Thread};
use std::marker::Model;

// What a call on lent tables answers: the tables are in place.
#[derive(Clone, Copy)]
pub struct Said {
    pub answer: Answer,
    pub thread: Thread,
}

// Tables that are safe: their arrays have their types' lengths, and they are sound. Who holds them makes calls with no test.
#[derive(Drop)]
pub struct SafeTables {
    pub tables: Tables,
}

impl Model for SafeTables {
    ghost Value = { Tables };

    ghost view = { λ s. s.tables };

    ghost invariant = { λ s. Safe s.tables };
}

impl SafeTables {
    // One call in place: it is 01's step, and leaves safe tables.
    pub fn step(&mut self, asked: Call) -> Said
        ensures { step_of self.new result.answer result.thread ≡ step self.old asked.number by asked }
    {
        step(&mut self.tables, asked)
    }
}

// A call's arguments are 32-bit words, by their types.
fn words(asked: Call)
    ensures { Words asked }
{}

// The answer to a call, whether it was accepted or refused.
fn answer_to(called: Result<Answer, Refusal>) -> Answer
    ensures { result ≡ answer_said called }
{
    match called {
        Ok(answer) => answer,
        Err(refusal) => Answer::from(refusal),
    }
}

// One call in place, with no test of the tables. On sound ones it is 01's step, and keeps them sound.
pub fn step(t: &mut Tables, asked: Call) -> Said
    ensures quick { step_of t.new result.answer result.thread ≡ quick_step t.old asked }
    ensures stepped { Sound t.old → Stepped t.old asked (step_of t.new result.answer result.thread) }
{
    words(asked);
    tables::typed(*t);
    let answer = answer_to(ranges::any_call(t, asked));
    let said = answers::named(asked.number, answer);
    dispatch_after::settle(
        asked.number,
        answer,
        &mut t.swis,
        &mut t.lines,
        &mut t.state,
    );
    let thread = dispatch::running(&t.lines, &t.state);
    Said {
        answer: said,
        thread,
    }
}
