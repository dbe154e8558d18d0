// Calls 40 and 41. Of each: whether it is refused, and why; its effect where it is accepted; and the call.
ghost use Rattle.std.specs.Prelude.{◌≡◌};
ghost use Rattle.rules.specs.Answer.{with_answer, answered, code_of, ◌by◌};
ghost use Rattle.rules.specs.Waits.{wait_tables};
ghost use Rattle.rules.specs.Mailboxes.{create_cases, create_effect, delete_cases, delete_effect, create_call, delete_call};
ghost use Rattle.rules.specs.Tables.{TaskTable, LineTable};
ghost use Rattle.rules.specs.Refusals.{answer_said, code_said};

use super::table::{free_mailbox, put_mailbox};
use super::waiters::anyone;
use rules::numbers::{CAPACITY, DONE, MAILBOX_MOST, MAILBOX_ROWS, MESSAGES, T};
use rules::{Answer, Call, Lines, Mailboxes, Refusal};

// ---- 40 create (capacity; T): value its number

// Whether call 40 is refused, and why.
#[tactic(auto, unfolding(rules::specs::Answer::first_given, rules::specs::Mailboxes::create_cases))]
pub fn create_code(mailboxes: &Mailboxes, x: u32, q: Call) -> Result<(), Refusal>
    ensures { code_said result ≡ code_of (create_cases mailboxes.now x by q) }
{
    if x != T {
        return Err(Refusal::WrongContext);
    }
    if (q.a == 0) | (MAILBOX_MOST < q.a) | answers::unused(0, q.b, q.c, q.d) {
        return Err(Refusal::BadArgument);
    }
    if free_mailbox(mailboxes) == MAILBOX_ROWS {
        return Err(Refusal::NoneFree);
    }
    Ok(())
}

// The lowest mailbox not in use has this capacity, and no messages.
#[tactic(auto, unfolding(rules::specs::Mailboxes::create_effect))]
pub fn create_effect(mailboxes: &mut Mailboxes, a: u32) -> Answer
    ensures { (ts : TaskTable) (ls : LineTable) → with_answer result (wait_tables ts ls mailboxes.new)
        ≡ create_effect (wait_tables ts ls mailboxes.old) a }
{
    let i = free_mailbox(mailboxes);
    put_mailbox(mailboxes, i, a);
    answers::accepted(DONE, i as u32)
}

// Call 40.
pub fn create(mailboxes: &mut Mailboxes, x: u32, q: Call) -> Result<Answer, Refusal>
    ensures leaves { (ts : TaskTable) (ls : LineTable) → with_answer (answer_said result) (wait_tables ts ls mailboxes.new)
        ≡ answered (wait_tables ts ls mailboxes.old) (create_call (wait_tables ts ls mailboxes.old) x by q) }
    ensures tells { code_said result ≡ code_of (create_cases mailboxes.old x by q) }
{
    create_code(mailboxes, x, q)?;
    Ok(create_effect(mailboxes, q.a))
}

// ---- 41 delete (T): 5 with waiters or messages

// Whether call 41 is refused, and why.
// Stays beside the deletes of other kinds: each reads another table, and only where the tests before it passed.
#[tactic(auto, unfolding(rules::specs::Answer::first_given, rules::specs::Answer::absent_code, rules::specs::Mailboxes::delete_cases))]
pub fn delete_code(lines: &Lines, mailboxes: &Mailboxes, x: u32, q: Call) -> Result<(), Refusal>
    ensures { code_said result ≡ code_of (delete_cases lines.now mailboxes.now x by q) }
{
    if x != T {
        return Err(Refusal::WrongContext);
    }
    let i = q.a as usize;
    if rows::mailbox(mailboxes, i, CAPACITY) == 0 {
        return Err(answers::absent(q.a, rules::numbers::MAILBOX_COUNT));
    }
    if answers::unused(0, q.b, q.c, q.d) {
        return Err(Refusal::BadArgument);
    }
    let n = rows::mailbox(mailboxes, i, MESSAGES);
    if anyone(lines, q.a) | (n != 0) {
        return Err(Refusal::Forbidden);
    }
    Ok(())
}

// The mailbox's row is all 0.
#[tactic(auto, unfolding(rules::specs::Mailboxes::delete_effect))]
pub fn delete_effect(mailboxes: &mut Mailboxes, a: u32) -> Answer
    ensures { (ts : TaskTable) (ls : LineTable) → with_answer result (wait_tables ts ls mailboxes.new)
        ≡ delete_effect (wait_tables ts ls mailboxes.old) a }
{
    put_mailbox(mailboxes, a as usize, 0);
    answers::accepted(DONE, 0)
}

// Call 41.
pub fn delete(lines: &Lines, mailboxes: &mut Mailboxes, x: u32, q: Call) -> Result<Answer, Refusal>
    ensures leaves { (ts : TaskTable) → with_answer (answer_said result) (wait_tables ts lines.now mailboxes.new)
        ≡ answered (wait_tables ts lines.now mailboxes.old) (delete_call (wait_tables ts lines.now mailboxes.old) x by q) }
    ensures tells { code_said result ≡ code_of (delete_cases lines.now mailboxes.old x by q) }
{
    delete_code(lines, mailboxes, x, q)?;
    Ok(delete_effect(mailboxes, q.a))
}
