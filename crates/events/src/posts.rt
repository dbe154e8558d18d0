// 33 post: whether it is refused, and why; its effect where it is accepted; and the call.
ghost use Rattle.std.specs.Prelude.{◌≡◌};
ghost use Rattle.rules.specs.Answer.{with_answer, answered, code_of, ◌by◌};
ghost use Rattle.rules.specs.Events.{waiter_match, posted_bits, post_cases, post_effect, post_call};
ghost use Rattle.rules.specs.Waits.{wait_tables};
ghost use Rattle.rules.specs.Refusals.{answer_said, code_said};

use rules::numbers::{BITS, DONE, EVENT_LINES, USED};
use rules::{Answer, Call, Events, Lines, Refusal, Tasks};

// What of these bits the waiter at event a matches; 0 where nobody waits.
#[tactic(auto, unfolding(rules::specs::Events::waiter_match))]
pub fn waiter_match(tasks: &Tasks, lines: &Lines, a: u32, bits: u32) -> u32
    ensures { result ≡ waiter_match tasks.now lines.now a bits }
{
    let j = EVENT_LINES + a as usize;
    if lines::anyone(lines, j) {
        let k = rows::task(tasks, usize::from(lines::first(lines, j)));
        return rows::readings::matched(bits, k.held, k.mask);
    }
    0
}

// ---- 33: post, with a mask

#[tactic(auto, unfolding(rules::specs::Answer::first_given, rules::specs::Answer::absent_code, rules::specs::Events::post_cases))]
pub fn post_code(events: &Events, q: Call) -> Result<(), Refusal>
    ensures { code_said result ≡ code_of (post_cases events.now q.a q.c q.d) }
{
    if rows::event(events, q.a as usize, USED) == 0 {
        return Err(answers::absent(q.a, rules::numbers::EVENT_COUNT));
    }
    if answers::unused(0, 0, q.c, q.d) {
        return Err(Refusal::BadArgument);
    }
    Ok(())
}

// With these bits posted: the waiter ready, what it matches cleared, and its number the value; or value 0.
#[tactic(auto, unfolding(rules::specs::Events::posted_bits))]
pub fn post_bits(
    tasks: &mut Tasks,
    lines: &mut Lines,
    events: &mut Events,
    a: u32,
    bits: u32,
) -> Answer
    ensures { with_answer result (wait_tables tasks.new lines.new events.new) ≡ posted_bits (wait_tables tasks.old lines.old events.old) a bits }
{
    let i = a as usize;
    let m = waiter_match(tasks, lines, a, bits);
    if m == 0 {
        rows::set_event(events, i, BITS, bits);
        return answers::accepted(DONE, 0);
    }
    rows::set_event(events, i, BITS, bits & !m);
    moves::wake_first(tasks, lines, EVENT_LINES + i, m)
}

pub fn post_effect(
    tasks: &mut Tasks,
    lines: &mut Lines,
    events: &mut Events,
    a: u32,
    mask: u32,
) -> Answer
    ensures { with_answer result (wait_tables tasks.new lines.new events.new) ≡ post_effect (wait_tables tasks.old lines.old events.old) a mask }
{
    let bits = rows::event(events, a as usize, BITS);
    post_bits(tasks, lines, events, a, bits | mask)
}

pub fn post(
    tasks: &mut Tasks,
    lines: &mut Lines,
    events: &mut Events,
    q: Call,
) -> Result<Answer, Refusal>
    ensures leaves { with_answer (answer_said result) (wait_tables tasks.new lines.new events.new)
        ≡ answered (wait_tables tasks.old lines.old events.old) (post_call (wait_tables tasks.old lines.old events.old) by q) }
    ensures tells { code_said result ≡ code_of (post_call (wait_tables tasks.old lines.old events.old) by q).cases }
{
    post_code(events, q)?;
    Ok(post_effect(tasks, lines, events, q.a, q.b))
}
