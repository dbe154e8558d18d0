// 32 pend: whether it is refused, and why; its effect where it is accepted; and the call.
ghost use Rattle.std.specs.Prelude.{◌≡◌};
ghost use Rattle.rules.specs.Answer.{with_answer, answered, code_of, ◌by◌};
ghost use Rattle.rules.specs.Tables.{event, BITS};
ghost use Rattle.rules.specs.Events.{matched, pend_waits, pend_cases, pend_effect, pend_call};
ghost use Rattle.rules.specs.Waits.{wait_tables};
ghost use Rattle.rules.specs.Refusals.{answer_said, code_said};

use rules::numbers::{AT_EVENT, BITS, DONE, EVENT_LINES, NOT_MET, NOW_WAITING, USED};
use rules::{Answer, Call, Events, Lines, Refusal, State, Tasks};

// What of event a's posted bits matches these masks.
pub fn event_match(events: &Events, a: u32, and_mask: u32, or_mask: u32) -> u32
    ensures { result ≡ matched (event events.now a BITS) and_mask or_mask }
{
    rows::readings::matched(rows::event(events, a as usize, BITS), and_mask, or_mask)
}

// ---- 32: pend, with an and-mask, an or-mask and a limit

// The call would go on to wait. Stays beside its likes of other kinds: one test each, of another word.
#[tactic(auto, unfolding(rules::specs::Events::pend_waits))]
pub fn pend_waits(events: &Events, q: Call) -> bool
    ensures { result ≡ pend_waits events.now by q }
{
    (event_match(events, q.a, q.b, q.c) == 0) & (q.d != 0)
}

#[tactic(auto, unfolding(rules::specs::Answer::first_given, rules::specs::Answer::absent_code, rules::specs::Events::pend_cases))]
pub fn pend_code(
    lines: &Lines,
    events: &Events,
    state: &State,
    x: u32,
    q: Call,
) -> Result<(), Refusal>
    ensures { code_said result ≡ code_of (pend_cases lines.now events.now state.now x by q) }
{
    if moves::begins::outside(x, q.d) {
        return Err(Refusal::WrongContext);
    }
    let i = q.a as usize;
    if rows::event(events, i, USED) == 0 {
        return Err(answers::absent(q.a, rules::numbers::EVENT_COUNT));
    }
    if (q.b == 0) & (q.c == 0) {
        return Err(Refusal::BadArgument);
    }
    if lines::anyone(lines, EVENT_LINES + i) {
        return Err(Refusal::Forbidden);
    }
    let begins = pend_waits(events, q);
    moves::begins::wait_code(state, begins)
}

// Any matched: they are cleared and are the value. Else not met, or the current task waits.
#[tactic(auto, unfolding(rules::specs::Events::pend_effect))]
pub fn pend_effect(
    tasks: &mut Tasks,
    lines: &mut Lines,
    events: &mut Events,
    state: &State,
    q: Call,
) -> Answer
    ensures { with_answer result (wait_tables tasks.new lines.new events.new) ≡ pend_effect (wait_tables tasks.old lines.old events.old) state.now by q }
{
    let m = event_match(events, q.a, q.b, q.c);
    if m != 0 {
        let i = q.a as usize;
        let bits = rows::event(events, i, BITS);
        rows::set_event(events, i, BITS, bits & !m);
        return answers::accepted(DONE, m);
    }
    if q.d == 0 {
        return answers::accepted(NOT_MET, 0);
    }
    let i = u32::from(rows::readings::current(state));
    moves::wait(tasks, lines, i, AT_EVENT, q.a, q.d, q.b, q.c);
    answers::accepted(NOW_WAITING, 0)
}

pub fn pend(
    tasks: &mut Tasks,
    lines: &mut Lines,
    events: &mut Events,
    state: &State,
    x: u32,
    q: Call,
) -> Result<Answer, Refusal>
    ensures leaves { with_answer (answer_said result) (wait_tables tasks.new lines.new events.new)
        ≡ answered (wait_tables tasks.old lines.old events.old) (pend_call (wait_tables tasks.old lines.old events.old) state.now x by q) }
    ensures tells { code_said result ≡ code_of (pend_call (wait_tables tasks.old lines.old events.old) state.now x by q).cases }
{
    pend_code(lines, events, state, x, q)?;
    Ok(pend_effect(tasks, lines, events, state, q))
}
