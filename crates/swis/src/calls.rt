// The calls that make and unmake a Swi, 10 and 11, and those of the running one, 17 and 18.
ghost use Rattle.std.specs.Prelude.{◌≡◌};
ghost use Rattle.rules.specs.Answer.{with_answer, answered, code_of, ◌by◌};
ghost use Rattle.rules.specs.Swis.{swi_queues, create_cases, create_effect, delete_cases, delete_effect, end_cases, end_effect, taken_cases, taken_effect, create_call};
ghost use Rattle.rules.specs.Swis.{delete_call, end_call, taken_call};
ghost use Rattle.rules.specs.Tables.{LineTable};
ghost use Rattle.rules.specs.Refusals.{answer_said, code_said};

use super::table::{free_swi, is_held, put_swi};
use rules::numbers::{ACTIVE_LINE, DONE, S, SWI_LEVELS, SWI_ROWS, T, TAKEN, USED};
use rules::{Answer, Call, Clocks, Lines, Refusal, State, Swis};

// ---- 10: create, with a priority of 0 to 15 and an initial trigger

// Any initial trigger is allowed.
#[tactic(auto, unfolding(rules::specs::Answer::first_given, rules::specs::Swis::create_cases))]
pub fn create_code(swis: &Swis, x: u32, q: Call) -> Result<(), Refusal>
    ensures { code_said result ≡ code_of (create_cases swis.now x by q) }
{
    if x != T {
        return Err(Refusal::WrongContext);
    }
    if (SWI_LEVELS <= q.a) | answers::unused(0, 0, q.c, q.d) {
        return Err(Refusal::BadArgument);
    }
    if free_swi(swis) == SWI_ROWS {
        return Err(Refusal::NoneFree);
    }
    Ok(())
}

// The lines, whatever stands in them, stay.
#[tactic(auto, unfolding(rules::specs::Swis::create_effect))]
pub fn create_effect(swis: &mut Swis, a: u32, b: u32) -> Answer
    ensures { (ls : LineTable) → with_answer result (swi_queues swis.new ls) ≡ create_effect (swi_queues swis.old ls) a b }
{
    let i = free_swi(swis);
    put_swi(swis, i, 1, a, b, b, 0, 0);
    answers::accepted(DONE, i as u32)
}

pub fn create(swis: &mut Swis, x: u32, q: Call) -> Result<Answer, Refusal>
    ensures leaves { (ls : LineTable) → with_answer (answer_said result) (swi_queues swis.new ls)
        ≡ answered (swi_queues swis.old ls) (create_call (swi_queues swis.old ls) x by q) }
    ensures tells { code_said result ≡ code_of (create_cases swis.old x by q) }
{
    create_code(swis, x, q)?;
    Ok(create_effect(swis, q.a, q.b))
}

// ---- 11: delete

#[tactic(auto, unfolding(rules::specs::Answer::first_given, rules::specs::Answer::absent_code, rules::specs::Swis::delete_cases))]
pub fn delete_code(
    swis: &Swis,
    lines: &Lines,
    clocks: &Clocks,
    x: u32,
    q: Call,
) -> Result<(), Refusal>
    ensures { code_said result ≡ code_of (delete_cases swis.now lines.now clocks.now x by q) }
{
    if x != T {
        return Err(Refusal::WrongContext);
    }
    if rows::swi(swis, q.a as usize, USED) == 0 {
        return Err(answers::absent(q.a, rules::numbers::SWI_COUNT));
    }
    if answers::unused(0, q.b, q.c, q.d) {
        return Err(Refusal::BadArgument);
    }
    if is_held(swis, lines, clocks, q.a) {
        return Err(Refusal::Forbidden);
    }
    Ok(())
}

// The row is all 0; the lines, whatever stands in them, stay.
#[tactic(auto, unfolding(rules::specs::Swis::delete_effect))]
pub fn delete_effect(swis: &mut Swis, a: u32) -> Answer
    ensures { (ls : LineTable) → with_answer result (swi_queues swis.new ls) ≡ delete_effect (swi_queues swis.old ls) a }
{
    put_swi(swis, a as usize, 0, 0, 0, 0, 0, 0);
    answers::accepted(DONE, 0)
}

pub fn delete(
    swis: &mut Swis,
    lines: &Lines,
    clocks: &Clocks,
    x: u32,
    q: Call,
) -> Result<Answer, Refusal>
    ensures leaves { with_answer (answer_said result) (swi_queues swis.new lines.now)
        ≡ answered (swi_queues swis.old lines.now) (delete_call (swi_queues swis.old lines.now) clocks.now x by q) }
    ensures tells { code_said result ≡ code_of (delete_call (swi_queues swis.old lines.now) clocks.now x by q).cases }
{
    delete_code(swis, lines, clocks, x, q)?;
    Ok(delete_effect(swis, q.a))
}

// ---- 17: end of the running Swi

#[tactic(auto, unfolding(rules::specs::Answer::first_given, rules::specs::Swis::end_cases))]
pub fn end_code(state: &State, x: u32, q: Call) -> Result<(), Refusal>
    ensures { code_said result ≡ code_of (end_cases state.now x by q) }
{
    if x != S {
        return Err(Refusal::WrongContext);
    }
    if answers::unused(q.a, q.b, q.c, q.d) {
        return Err(Refusal::BadArgument);
    }
    if state[rules::numbers::SWIS] == 0 {
        return Err(Refusal::SwitchedOff);
    }
    Ok(())
}

// The top active Swi is active no more, and its taken trigger 0.
#[tactic(auto, unfolding(rules::specs::Swis::end_effect))]
pub fn end_effect(swis: &mut Swis, lines: &mut Lines) -> Answer
    ensures { with_answer result (swi_queues swis.new lines.new) ≡ end_effect (swi_queues swis.old lines.old) }
{
    let i = lines::top(lines);
    rows::set_swi(swis, usize::from(i), TAKEN, 0);
    lines::leave(lines, ACTIVE_LINE, i);
    answers::accepted(DONE, 0)
}

pub fn end(
    swis: &mut Swis,
    lines: &mut Lines,
    state: &State,
    x: u32,
    q: Call,
) -> Result<Answer, Refusal>
    ensures leaves { with_answer (answer_said result) (swi_queues swis.new lines.new)
        ≡ answered (swi_queues swis.old lines.old) (end_call (swi_queues swis.old lines.old) state.now x by q) }
    ensures tells { code_said result ≡ code_of (end_call (swi_queues swis.old lines.old) state.now x by q).cases }
{
    end_code(state, x, q)?;
    Ok(end_effect(swis, lines))
}

// ---- 18: taken trigger of the running Swi

#[tactic(auto, unfolding(rules::specs::Answer::first_given, rules::specs::Swis::taken_cases))]
pub fn taken_code(x: u32, q: Call) -> Result<(), Refusal>
    ensures { code_said result ≡ code_of (taken_cases x by q) }
{
    if x != S {
        return Err(Refusal::WrongContext);
    }
    if answers::unused(q.a, q.b, q.c, q.d) {
        return Err(Refusal::BadArgument);
    }
    Ok(())
}

#[tactic(auto, unfolding(rules::specs::Swis::taken_effect))]
pub fn taken_effect(swis: &Swis, lines: &Lines) -> Answer
    ensures { with_answer result (swi_queues swis.now lines.now) ≡ taken_effect (swi_queues swis.now lines.now) }
{
    let i = lines::top(lines);
    answers::accepted(DONE, rows::swi(swis, usize::from(i), TAKEN))
}

pub fn taken(swis: &Swis, lines: &Lines, x: u32, q: Call) -> Result<Answer, Refusal>
    ensures leaves { with_answer (answer_said result) (swi_queues swis.now lines.now) ≡ answered (swi_queues swis.now lines.now) (taken_call (swi_queues swis.now lines.now) x by q) }
    ensures tells { code_said result ≡ code_of (taken_call (swi_queues swis.now lines.now) x by q).cases }
{
    taken_code(x, q)?;
    Ok(taken_effect(swis, lines))
}
