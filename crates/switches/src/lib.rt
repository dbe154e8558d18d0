// The switches, the interrupt and the tick: calls 74 to 78.
#![tactic(auto)]

pub mod state;
pub mod ticking;

ghost use Rattle.std.specs.Prelude.{◌≡◌};
ghost use Rattle.rules.specs.Answer.{with_answer, answered, code_of, ◌by◌};
ghost use Rattle.rules.specs.Tick.{switch_call, tick_tables};
ghost use Rattle.rules.specs.Refusals.{answer_said, code_said};

use rules::{Answer, Call, Clocks, Lines, Refusal, State, Swis, Tasks};
use ticking::tick_call;

// Calls 74 to 78 by number.
// Who calls stays a number: the definitions answer any, and an enum would ask more of a caller.
// The tables stay a list: it says which of them these calls may change.
#[tactic(auto, unfolding(rules::specs::Tick::switch_call, rules::specs::Answer::first_given))]
pub fn switch_call(
    tasks: &mut Tasks,
    lines: &mut Lines,
    swis: &mut Swis,
    clocks: &mut Clocks,
    state: &mut State,
    x: u32,
    q: Call,
) -> Result<Answer, Refusal>
    ensures leaves { with_answer (answer_said result) (tick_tables tasks.new lines.new swis.new clocks.new state.new)
        ≡ answered (tick_tables tasks.old lines.old swis.old clocks.old state.old) (switch_call (tick_tables tasks.old lines.old swis.old clocks.old state.old) x q.number by q) }
    ensures tells { code_said result ≡ code_of (switch_call (tick_tables tasks.old lines.old swis.old clocks.old state.old) x q.number by q).cases }
{
    let number = q.number;
    match number {
        0x74 => state::interrupt_in(state, q),
        0x75 => state::interrupt_out(state, x, q),
        0x76 => tick_call(tasks, lines, swis, clocks, state, x, q),
        0x77 => state::off(state, x, q),
        0x78 => state::restore(state, x, q),
        _ => Err(Refusal::UnknownCall),
    }
}
