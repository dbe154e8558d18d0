// The calls on events, 30 to 33.
#![tactic(auto)]

pub mod calls;
pub mod pends;
pub mod posts;
pub mod table;

ghost use Rattle.std.specs.Prelude.{◌≡◌};
ghost use Rattle.rules.specs.Answer.{with_answer, answered, code_of, ◌by◌};
ghost use Rattle.rules.specs.Events.{event_call};
ghost use Rattle.rules.specs.Waits.{wait_tables};
ghost use Rattle.rules.specs.Refusals.{answer_said, code_said};

use rules::{Answer, Call, Events, Lines, Refusal, State, Tasks};

// The call of this number, made by x: 0 a task, 1 a Swi, 2 an interrupt.
// Who calls stays a number: the definitions answer any, and an enum would ask more of a caller.
// The tables stay apart, here and below: the signature says which of them a call may touch.
#[tactic(auto, unfolding(rules::specs::Events::event_call, rules::specs::Answer::first_given))]
pub fn event_call(
    tasks: &mut Tasks,
    lines: &mut Lines,
    events: &mut Events,
    state: &State,
    x: u32,
    q: Call,
) -> Result<Answer, Refusal>
    ensures leaves { with_answer (answer_said result) (wait_tables tasks.new lines.new events.new)
        ≡ answered (wait_tables tasks.old lines.old events.old) (event_call (wait_tables tasks.old lines.old events.old) state.now x q.number by q) }
    ensures tells { code_said result ≡ code_of (event_call (wait_tables tasks.old lines.old events.old) state.now x q.number by q).cases }
{
    let number = q.number;
    match number {
        0x30 => calls::create(events, x, q),
        0x31 => calls::delete(lines, events, x, q),
        0x32 => pends::pend(tasks, lines, events, state, x, q),
        0x33 => posts::post(tasks, lines, events, q),
        _ => Err(Refusal::UnknownCall),
    }
}
