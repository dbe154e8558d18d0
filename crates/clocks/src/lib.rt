// The calls on clocks, 50 to 53.
#![tactic(auto)]

pub mod ageing;
pub mod calls;
pub mod table;

ghost use Rattle.std.specs.Prelude.{◌≡◌};
ghost use Rattle.rules.specs.Answer.{with_answer, answered, code_of, ◌by◌};
ghost use Rattle.rules.specs.Clocks.{clock_call};
ghost use Rattle.rules.specs.Refusals.{answer_said, code_said};

use calls::{create, delete, start, stop};
use rules::{Answer, Call, Clocks, Refusal, Swis};

// ---- the calls by number

// Made by x: 0 a task, 1 a Swi, 2 an interrupt.
// Who calls stays a number: the definitions answer any, and an enum would ask more of a caller.
#[tactic(auto, unfolding(rules::specs::Clocks::clock_call, rules::specs::Answer::first_given))]
pub fn clock_call(clocks: &mut Clocks, swis: &Swis, x: u32, q: Call) -> Result<Answer, Refusal>
    ensures leaves { with_answer (answer_said result) clocks.new ≡ answered clocks.old (clock_call clocks.old swis.now x q.number by q) }
    ensures tells { code_said result ≡ code_of (clock_call clocks.old swis.now x q.number by q).cases }
{
    let number = q.number;
    match number {
        0x50 => create(clocks, swis, x, q),
        0x51 => delete(clocks, x, q),
        0x52 => start(clocks, q),
        0x53 => stop(clocks, q),
        _ => Err(Refusal::UnknownCall),
    }
}
