// Calls 30 and 31. Of each: whether it is refused, and why; its effect where it is accepted; and the call.
ghost use Rattle.std.specs.Prelude.{◌≡◌};
ghost use Rattle.rules.specs.Answer.{with_answer, answered, code_of, ◌by◌};
ghost use Rattle.rules.specs.Waits.{wait_tables};
ghost use Rattle.rules.specs.Events.{create_cases, create_effect, delete_cases, delete_effect, create_call, delete_call};
ghost use Rattle.rules.specs.Tables.{TaskTable, LineTable};
ghost use Rattle.rules.specs.Refusals.{answer_said, code_said};

use super::table::{free_event, put_event};
use rules::numbers::{DONE, EVENT_LINES, EVENT_ROWS, T, USED};
use rules::{Answer, Call, Events, Lines, Refusal};

// ---- 30: create

#[tactic(auto, unfolding(rules::specs::Answer::first_given, rules::specs::Events::create_cases))]
pub fn create_code(events: &Events, x: u32, q: Call) -> Result<(), Refusal>
    ensures { code_said result ≡ code_of (create_cases events.now x by q) }
{
    if x != T {
        return Err(Refusal::WrongContext);
    }
    if answers::unused(q.a, q.b, q.c, q.d) {
        return Err(Refusal::BadArgument);
    }
    if free_event(events) == EVENT_ROWS {
        return Err(Refusal::NoneFree);
    }
    Ok(())
}

// The tasks and the lines stay, whatever they are.
#[tactic(auto, unfolding(rules::specs::Events::create_effect))]
pub fn create_effect(events: &mut Events) -> Answer
    ensures { (ts : TaskTable) (ls : LineTable) → with_answer result (wait_tables ts ls events.new) ≡ create_effect (wait_tables ts ls events.old) }
{
    let i = free_event(events);
    put_event(events, i, 1, 0);
    answers::accepted(DONE, i as u32)
}

pub fn create(events: &mut Events, x: u32, q: Call) -> Result<Answer, Refusal>
    ensures leaves { (ts : TaskTable) (ls : LineTable) → with_answer (answer_said result) (wait_tables ts ls events.new)
        ≡ answered (wait_tables ts ls events.old) (create_call (wait_tables ts ls events.old) x by q) }
    ensures tells { code_said result ≡ code_of (create_cases events.old x by q) }
{
    create_code(events, x, q)?;
    Ok(create_effect(events))
}

// ---- 31: delete

// Stays beside the deletes of other kinds: each reads another table, and only where the tests before it passed.
#[tactic(auto, unfolding(rules::specs::Answer::first_given, rules::specs::Answer::absent_code, rules::specs::Events::delete_cases))]
pub fn delete_code(lines: &Lines, events: &Events, x: u32, q: Call) -> Result<(), Refusal>
    ensures { code_said result ≡ code_of (delete_cases lines.now events.now x by q) }
{
    if x != T {
        return Err(Refusal::WrongContext);
    }
    let i = q.a as usize;
    if rows::event(events, i, USED) == 0 {
        return Err(answers::absent(q.a, rules::numbers::EVENT_COUNT));
    }
    if answers::unused(0, q.b, q.c, q.d) {
        return Err(Refusal::BadArgument);
    }
    if lines::anyone(lines, EVENT_LINES + i) {
        return Err(Refusal::Forbidden);
    }
    Ok(())
}

// The row is all 0.
#[tactic(auto, unfolding(rules::specs::Events::delete_effect))]
pub fn delete_effect(events: &mut Events, a: u32) -> Answer
    ensures { (ts : TaskTable) (ls : LineTable) → with_answer result (wait_tables ts ls events.new) ≡ delete_effect (wait_tables ts ls events.old) a }
{
    put_event(events, a as usize, 0, 0);
    answers::accepted(DONE, 0)
}

pub fn delete(lines: &Lines, events: &mut Events, x: u32, q: Call) -> Result<Answer, Refusal>
    ensures leaves { (ts : TaskTable) → with_answer (answer_said result) (wait_tables ts lines.now events.new)
        ≡ answered (wait_tables ts lines.now events.old) (delete_call (wait_tables ts lines.now events.old) x by q) }
    ensures tells { code_said result ≡ code_of (delete_cases lines.now events.old x by q) }
{
    delete_code(lines, events, x, q)?;
    Ok(delete_effect(events, q.a))
}
