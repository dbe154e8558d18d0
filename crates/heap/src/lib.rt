// The calls on the heap, 60 and 61.
#![tactic(auto)]

pub mod blocks;
pub mod calls;
pub mod free_units;

ghost use Rattle.std.specs.Prelude.{◌≡◌};
ghost use Rattle.rules.specs.Answer.{with_answer, answered, code_of, ◌by◌};
ghost use Rattle.rules.specs.Heap.{heap_call};
ghost use Rattle.rules.specs.Refusals.{answer_said, code_said};

use calls::{give_back, take};
use rules::{Answer, Call, Heap, Refusal};

// ---- the calls by number

// Made by x: 0 a task, 1 a Swi, 2 an interrupt.
// Who calls stays a number: the definitions answer any, and an enum would ask more of a caller.
#[tactic(auto, unfolding(rules::specs::Heap::heap_call, rules::specs::Answer::first_given))]
pub fn heap_call(heap: &mut Heap, x: u32, q: Call) -> Result<Answer, Refusal>
    ensures leaves { with_answer (answer_said result) heap.new ≡ answered heap.old (heap_call heap.old x q.number by q) }
    ensures tells { code_said result ≡ code_of (heap_call heap.old x q.number by q).cases }
{
    let number = q.number;
    match number {
        0x60 => take(heap, x, q),
        0x61 => give_back(heap, x, q),
        _ => Err(Refusal::UnknownCall),
    }
}
