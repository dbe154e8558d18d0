// The calls of tasks, 00 to 06.
#![tactic(auto)]

pub mod calls;
pub mod running;
pub mod table;

ghost use Rattle.std.specs.Prelude.{◌≡◌};
ghost use Rattle.rules.specs.Answer.{with_answer, answered, code_of, ◌by◌};
ghost use Rattle.rules.specs.Tasks.{task_call};
ghost use Rattle.rules.specs.Lines.{task_queues};
ghost use Rattle.rules.specs.Refusals.{answer_said, code_said};

use rules::{Answer, Call, Lines, Refusal, State, Tasks};

// 00 to 06; 1 for another number.
// Who calls stays a number: the definitions answer any, and an enum would ask more of a caller.
#[tactic(auto, unfolding(rules::specs::Tasks::task_call, rules::specs::Answer::first_given))]
pub fn task_call(
    tasks: &mut Tasks,
    lines: &mut Lines,
    state: &State,
    x: u32,
    q: Call,
) -> Result<Answer, Refusal>
    ensures leaves { with_answer (answer_said result) (task_queues tasks.new lines.new)
        ≡ answered (task_queues tasks.old lines.old) (task_call (task_queues tasks.old lines.old) state.now x q.number by q) }
    ensures tells { code_said result ≡ code_of (task_call (task_queues tasks.old lines.old) state.now x q.number by q).cases }
{
    let number = q.number;
    match number {
        0x00 => calls::create(tasks, lines, state, x, q),
        0x01 => calls::delete(tasks, x, q),
        0x02 => calls::set_priority(tasks, lines, state, x, q),
        0x03 => running::yield_task(tasks, lines, state, x, q),
        0x04 => running::end(tasks, lines, state, x, q),
        0x05 => running::sleep(tasks, lines, state, x, q),
        0x06 => calls::last_result(tasks, q),
        _ => Err(Refusal::UnknownCall),
    }
}
