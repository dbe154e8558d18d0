// 43 pend: whether it is refused, and why; its effect where it is accepted; and the call.
ghost use Rattle.std.specs.Prelude.{◌≡◌};
ghost use Rattle.rules.specs.Answer.{with_answer, answered, code_of, ◌by◌};
ghost use Rattle.rules.specs.Mailboxes.{pend_cases, oldest_taken, pend_effect, pend_call};
ghost use Rattle.rules.specs.Waits.{wait_tables};
ghost use Rattle.rules.specs.Refusals.{answer_said, code_said};

use super::messages::{oldest, shift, take_word};
use super::waiters::{first, not_done, pend_waits, waits_first};
use rules::numbers::{CAPACITY, DONE, MESSAGES, READING, WRITING};
use rules::{Answer, Call, Lines, Mailboxes, Refusal, State, Tasks};

// ---- 43 pend (mailbox, limit): value the oldest word

// Whether call 43 is refused, and why.
#[tactic(auto, unfolding(rules::specs::Answer::first_given, rules::specs::Answer::absent_code, rules::specs::Mailboxes::pend_cases))]
pub fn pend_code(mailboxes: &Mailboxes, state: &State, x: u32, q: Call) -> Result<(), Refusal>
    ensures { code_said result ≡ code_of (pend_cases mailboxes.now state.now x by q) }
{
    if moves::begins::outside(x, q.b) {
        return Err(Refusal::WrongContext);
    }
    if rows::mailbox(mailboxes, q.a as usize, CAPACITY) == 0 {
        return Err(answers::absent(q.a, rules::numbers::MAILBOX_COUNT));
    }
    if answers::unused(0, 0, q.c, q.d) {
        return Err(Refusal::BadArgument);
    }
    let begins = pend_waits(mailboxes, q.a, q.b);
    moves::begins::wait_code(state, begins)
}

// The oldest message goes; the first waiting writer's word joins the back, that writer is ready.
#[tactic(auto, unfolding(rules::specs::Mailboxes::oldest_taken))]
pub fn take(tasks: &mut Tasks, lines: &mut Lines, mailboxes: &mut Mailboxes, a: u32)
    ensures { wait_tables tasks.new lines.new mailboxes.new ≡ oldest_taken (wait_tables tasks.old lines.old mailboxes.old) a }
{
    if waits_first(tasks, lines, a, WRITING) {
        let i = first(lines, a);
        let writer = rows::task(tasks, i as usize);
        shift(mailboxes, a as usize, writer.held);
        moves::wake(tasks, lines, i, DONE, 0);
    } else {
        take_word(mailboxes, a as usize);
    }
}

// The oldest word is the value and is taken, or the pend is not done at once.
#[tactic(auto, unfolding(rules::specs::Mailboxes::pend_effect))]
pub fn pend_effect(
    tasks: &mut Tasks,
    lines: &mut Lines,
    mailboxes: &mut Mailboxes,
    state: &State,
    a: u32,
    limit: u32,
) -> Answer
    ensures { with_answer result (wait_tables tasks.new lines.new mailboxes.new) ≡ pend_effect (wait_tables tasks.old lines.old mailboxes.old) state.now a limit }
{
    if rows::mailbox(mailboxes, a as usize, MESSAGES) == 0 {
        return not_done(tasks, lines, state, READING, a, limit, 0);
    }
    let value = oldest(mailboxes, a as usize);
    take(tasks, lines, mailboxes, a);
    answers::accepted(DONE, value)
}

// Call 43.
pub fn pend(
    tasks: &mut Tasks,
    lines: &mut Lines,
    mailboxes: &mut Mailboxes,
    state: &State,
    x: u32,
    q: Call,
) -> Result<Answer, Refusal>
    ensures leaves { with_answer (answer_said result) (wait_tables tasks.new lines.new mailboxes.new)
        ≡ answered (wait_tables tasks.old lines.old mailboxes.old) (pend_call (wait_tables tasks.old lines.old mailboxes.old) state.now x by q) }
    ensures tells { code_said result ≡ code_of (pend_call (wait_tables tasks.old lines.old mailboxes.old) state.now x by q).cases }
{
    pend_code(mailboxes, state, x, q)?;
    Ok(pend_effect(tasks, lines, mailboxes, state, q.a, q.b))
}
