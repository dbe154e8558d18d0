// The calls on Swis, 10 to 18.
#![tactic(auto)]

pub mod calls;
pub mod posts;
pub mod table;

ghost use Rattle.std.specs.Prelude.{◌≡◌};
ghost use Rattle.rules.specs.Answer.{with_answer, answered, code_of, ◌by◌};
ghost use Rattle.rules.specs.Swis.{swi_call, swi_queues};
ghost use Rattle.rules.specs.Refusals.{answer_said, code_said};

use rules::{Answer, Call, Clocks, Lines, Refusal, State, Swis};

// The call of this number, made by x: 0 a task, 1 a Swi, 2 an interrupt.
// Who calls stays a number: the definitions answer any, and an enum would ask more of a caller.
#[tactic(auto, unfolding(rules::specs::Swis::swi_call, rules::specs::Answer::first_given))]
pub fn swi_call(
    swis: &mut Swis,
    lines: &mut Lines,
    clocks: &Clocks,
    state: &State,
    x: u32,
    q: Call,
) -> Result<Answer, Refusal>
    ensures leaves { with_answer (answer_said result) (swi_queues swis.new lines.new)
        ≡ answered (swi_queues swis.old lines.old) (swi_call (swi_queues swis.old lines.old) clocks.now state.now x q.number by q) }
    ensures tells { code_said result ≡ code_of (swi_call (swi_queues swis.old lines.old) clocks.now state.now x q.number by q).cases }
{
    let number = q.number;
    match number {
        0x10 => calls::create(swis, x, q),
        0x11 => calls::delete(swis, lines, clocks, x, q),
        0x12 => posts::post(swis, lines, q),
        0x13 => posts::add(swis, lines, q),
        0x14 => posts::take(swis, lines, q),
        0x15 => posts::set_bits(swis, lines, q),
        0x16 => posts::clear_bits(swis, lines, q),
        0x17 => calls::end(swis, lines, state, x, q),
        0x18 => calls::taken(swis, lines, x, q),
        _ => Err(Refusal::UnknownCall),
    }
}
