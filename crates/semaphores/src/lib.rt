// The calls on semaphores, 20 to 24.
#![tactic(auto)]

pub mod calls;
pub mod pends;
pub mod posts;
pub mod table;

ghost use Rattle.std.specs.Prelude.{◌≡◌};
ghost use Rattle.rules.specs.Answer.{with_answer, answered, code_of, ◌by◌};
ghost use Rattle.rules.specs.Semaphores.{semaphore_call};
ghost use Rattle.rules.specs.Waits.{wait_tables};
ghost use Rattle.rules.specs.Refusals.{answer_said, code_said};

use rules::{Answer, Call, Lines, Refusal, Semaphores, State, Tasks};

// The call of this number, made by x: 0 a task, 1 a Swi, 2 an interrupt.
// Who calls stays a number: the definitions answer any, and an enum would ask more of a caller.
// The tables stay apart, here and below: the signature says which of them a call may touch.
#[tactic(auto, unfolding(rules::specs::Answer::first_given, rules::specs::Semaphores::semaphore_call))]
pub fn semaphore_call(
    tasks: &mut Tasks,
    lines: &mut Lines,
    semaphores: &mut Semaphores,
    state: &State,
    x: u32,
    q: Call,
) -> Result<Answer, Refusal>
    ensures leaves { with_answer (answer_said result) (wait_tables tasks.new lines.new semaphores.new)
        ≡ answered (wait_tables tasks.old lines.old semaphores.old) (semaphore_call (wait_tables tasks.old lines.old semaphores.old) state.now x q.number by q) }
    ensures tells { code_said result ≡ code_of (semaphore_call (wait_tables tasks.old lines.old semaphores.old) state.now x q.number by q).cases }
{
    let number = q.number;
    match number {
        0x20 => calls::create(semaphores, x, q),
        0x21 => calls::delete(lines, semaphores, x, q),
        0x22 => pends::pend(tasks, lines, semaphores, state, x, q),
        0x23 => posts::post(tasks, lines, semaphores, q),
        0x24 => calls::reset(lines, semaphores, x, q),
        _ => Err(Refusal::UnknownCall),
    }
}
