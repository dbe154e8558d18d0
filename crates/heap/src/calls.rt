// Calls 60 and 61.
ghost use Rattle.std.specs.Prelude.{◌≡◌};
ghost use Rattle.rules.specs.Answer.{with_answer, answered, code_of, ◌by◌};
ghost use Rattle.rules.specs.Heap.{take_call, give_call};
ghost use Rattle.rules.specs.Refusals.{answer_said, code_said};

use super::blocks::{is_block, mark, units};
use super::free_units::lowest_run;
use answers::{accepted, unused};
use rules::numbers::{
    DONE, FIRST_OF, FREE, HEAP_BYTES, HEAP_UNITS, LATER_IN, T, UNIT_BYTES, UNIT_WIDTH,
};
use rules::{Answer, Call, Heap, Refusal};

// ---- 60 take (bytes)

#[tactic(auto, unfolding(rules::specs::Answer::first_given, rules::specs::Heap::take_cases, rules::specs::Heap::take_effect))]
pub fn take(heap: &mut Heap, x: u32, q: Call) -> Result<Answer, Refusal>
    ensures leaves { with_answer (answer_said result) heap.new ≡ answered heap.old (take_call heap.old x by q) }
    ensures tells { code_said result ≡ code_of (take_call heap.old x by q).cases }
{
    if x != T {
        return Err(Refusal::WrongContext);
    }
    if (q.a == 0) | (HEAP_BYTES < q.a) | unused(0, q.b, q.c, q.d) {
        return Err(Refusal::BadArgument);
    }
    let n = units(q.a);
    let u = lowest_run(heap, n);
    if u == HEAP_UNITS {
        return Err(Refusal::NoRoom);
    }
    mark(heap, u, n, FIRST_OF, LATER_IN);
    Ok(accepted(DONE, (u * UNIT_WIDTH) as u32))
}

// ---- 61 give back (offset, bytes)

#[tactic(auto, unfolding(rules::specs::Answer::first_given, rules::specs::Heap::give_cases, rules::specs::Heap::give_effect))]
pub fn give_back(heap: &mut Heap, x: u32, q: Call) -> Result<Answer, Refusal>
    ensures leaves { with_answer (answer_said result) heap.new ≡ answered heap.old (give_call heap.old x by q) }
    ensures tells { code_said result ≡ code_of (give_call heap.old x by q).cases }
{
    if x != T {
        return Err(Refusal::WrongContext);
    }
    if !is_block(heap, q.a, q.b) | unused(0, 0, q.c, q.d) {
        return Err(Refusal::BadArgument);
    }
    // the block has as many units as its bytes take, so it is not measured again
    mark(heap, (q.a / UNIT_BYTES) as usize, units(q.b), FREE, FREE);
    Ok(accepted(DONE, 0))
}
