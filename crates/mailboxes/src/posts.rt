// 42 post: whether it is refused, and why; its effect where it is accepted; and the call.
ghost use Rattle.std.specs.Prelude.{◌≡◌};
ghost use Rattle.rules.specs.Answer.{with_answer, answered, code_of, ◌by◌};
ghost use Rattle.rules.specs.Mailboxes.{post_cases, post_effect, post_call};
ghost use Rattle.rules.specs.Waits.{wait_tables};
ghost use Rattle.rules.specs.Refusals.{answer_said, code_said};

use super::messages::put_word;
use super::waiters::{is_full, not_done, post_waits, waits_first};
use rules::numbers::{CAPACITY, DONE, MAILBOX_LINES, READING, WRITING};
use rules::{Answer, Call, Lines, Mailboxes, Refusal, State, Tasks};

// ---- 42 post (mailbox, word, limit): to the first waiting reader, else to the back, else wait

// Whether call 42 is refused, and why.
#[tactic(auto, unfolding(rules::specs::Answer::first_given, rules::specs::Answer::absent_code, rules::specs::Mailboxes::post_cases))]
pub fn post_code(
    tasks: &Tasks,
    lines: &Lines,
    mailboxes: &Mailboxes,
    state: &State,
    x: u32,
    q: Call,
) -> Result<(), Refusal>
    ensures { code_said result ≡ code_of (post_cases tasks.now lines.now mailboxes.now state.now x q.a q.c q.d) }
{
    if moves::begins::outside(x, q.c) {
        return Err(Refusal::WrongContext);
    }
    if rows::mailbox(mailboxes, q.a as usize, CAPACITY) == 0 {
        return Err(answers::absent(q.a, rules::numbers::MAILBOX_COUNT));
    }
    if answers::unused(0, 0, 0, q.d) {
        return Err(Refusal::BadArgument);
    }
    let begins = post_waits(tasks, lines, mailboxes, q.a, q.c);
    moves::begins::wait_code(state, begins)
}

// The word goes to the first waiting reader, whose number is the value; or to the back, or the post is not done at once.
#[tactic(auto, unfolding(rules::specs::Mailboxes::post_effect))]
pub fn post_effect(
    tasks: &mut Tasks,
    lines: &mut Lines,
    mailboxes: &mut Mailboxes,
    state: &State,
    a: u32,
    word: u32,
    limit: u32,
) -> Answer
    ensures { with_answer result (wait_tables tasks.new lines.new mailboxes.new) ≡ post_effect (wait_tables tasks.old lines.old mailboxes.old) state.now a word limit }
{
    if waits_first(tasks, lines, a, READING) {
        return moves::wake_first(tasks, lines, MAILBOX_LINES + a as usize, word);
    }
    if is_full(mailboxes, a) {
        return not_done(tasks, lines, state, WRITING, a, limit, word);
    }
    put_word(mailboxes, a as usize, word);
    answers::accepted(DONE, 0)
}

// Call 42.
pub fn post(
    tasks: &mut Tasks,
    lines: &mut Lines,
    mailboxes: &mut Mailboxes,
    state: &State,
    x: u32,
    q: Call,
) -> Result<Answer, Refusal>
    ensures leaves { with_answer (answer_said result) (wait_tables tasks.new lines.new mailboxes.new)
        ≡ answered (wait_tables tasks.old lines.old mailboxes.old) (post_call (wait_tables tasks.old lines.old mailboxes.old) state.now x by q) }
    ensures tells { code_said result ≡ code_of (post_call (wait_tables tasks.old lines.old mailboxes.old) state.now x by q).cases }
{
    post_code(tasks, lines, mailboxes, state, x, q)?;
    Ok(post_effect(tasks, lines, mailboxes, state, q.a, q.b, q.c))
}
