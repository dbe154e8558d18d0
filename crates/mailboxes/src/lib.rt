// The mailbox calls, 40 to 43.
#![tactic(auto)]

pub mod calls;
pub mod messages;
pub mod pends;
pub mod posts;
pub mod table;
pub mod waiters;

ghost use Rattle.std.specs.Prelude.{◌≡◌};
ghost use Rattle.rules.specs.Answer.{with_answer, answered, code_of, ◌by◌};
ghost use Rattle.rules.specs.Mailboxes.{mailbox_call};
ghost use Rattle.rules.specs.Waits.{wait_tables};
ghost use Rattle.rules.specs.Refusals.{answer_said, code_said};

use rules::{Answer, Call, Lines, Mailboxes, Refusal, State, Tasks};

// The call of this number, made by x: 0 a task, 1 a Swi, 2 an interrupt.
// Who calls stays a number: the definitions answer any, and an enum would ask more of a caller.
// The tables stay apart, here and below: the signature says which of them a call may touch.
#[tactic(auto, unfolding(rules::specs::Mailboxes::mailbox_call, rules::specs::Answer::first_given))]
pub fn mailbox_call(
    tasks: &mut Tasks,
    lines: &mut Lines,
    mailboxes: &mut Mailboxes,
    state: &State,
    x: u32,
    q: Call,
) -> Result<Answer, Refusal>
    ensures leaves { with_answer (answer_said result) (wait_tables tasks.new lines.new mailboxes.new)
        ≡ answered (wait_tables tasks.old lines.old mailboxes.old) (mailbox_call (wait_tables tasks.old lines.old mailboxes.old) state.now x q.number by q) }
    ensures tells { code_said result ≡ code_of (mailbox_call (wait_tables tasks.old lines.old mailboxes.old) state.now x q.number by q).cases }
{
    let number = q.number;
    match number {
        0x40 => calls::create(mailboxes, x, q),
        0x41 => calls::delete(lines, mailboxes, x, q),
        0x42 => posts::post(tasks, lines, mailboxes, state, x, q),
        0x43 => pends::pend(tasks, lines, mailboxes, state, x, q),
        _ => Err(Refusal::UnknownCall),
    }
}
