// Posting a Swi, and the calls 12 to 16.
ghost use Rattle.std.specs.Prelude.{◌≡◌};
ghost use Rattle.rules.specs.Answer.{with_answer, answered, code_of, ◌by◌};
ghost use Rattle.rules.specs.Swis.{posted, one_down, post_cases, mask_cases, post_effect, change_effect, zero_effect, post_call, add_call, take_call, set_bits_call, swi_queues};
ghost use Rattle.rules.specs.Swis.{clear_bits_call};
ghost use Rattle.rules.specs.Refusals.{answer_said, code_said};

use rules::numbers::{DONE, POSTED, POSTED_LINES, PRIORITY, TRIGGER, USED};
use rules::{Answer, Call, Lines, Refusal, Swis};

// Swi i joins its priority's queue at the back, unless it is posted already.
#[tactic(auto, unfolding(rules::specs::Swis::posted))]
pub fn post_swi(swis: &mut Swis, lines: &mut Lines, i: u32)
    ensures { swi_queues swis.new lines.new ≡ posted i (swi_queues swis.old lines.old) }
{
    if i < rules::numbers::SWI_COUNT {
        let n = i as usize;
        if rows::swi(swis, n, POSTED) == 0 {
            let priority = rows::swi(swis, n, PRIORITY) as usize;
            rows::set_swi(swis, n, POSTED, 1);
            lines::join(lines, POSTED_LINES + priority, i as u8);
        }
    }
}

// One less, going round.
pub fn one_down(v: u32) -> u32
    ensures { result ≡ one_down v }
{
    std::num::wrapping_sub_u32(v, 1)
}

// ---- the checks

// Of a call that takes a Swi alone.
#[tactic(auto, unfolding(rules::specs::Answer::first_given, rules::specs::Answer::absent_code, rules::specs::Swis::post_cases))]
pub fn post_code(swis: &Swis, q: Call) -> Result<(), Refusal>
    ensures { code_said result ≡ code_of (post_cases swis.now by q) }
{
    if rows::swi(swis, q.a as usize, USED) == 0 {
        return Err(answers::absent(q.a, rules::numbers::SWI_COUNT));
    }
    if answers::unused(0, q.b, q.c, q.d) {
        return Err(Refusal::BadArgument);
    }
    Ok(())
}

// Of a call that takes a Swi and any mask.
#[tactic(auto, unfolding(rules::specs::Swis::post_cases, rules::specs::Swis::mask_cases))]
pub fn mask_code(swis: &Swis, q: Call) -> Result<(), Refusal>
    ensures { code_said result ≡ code_of (mask_cases swis.now q.a q.c q.d) }
{
    post_code(swis, Call { b: 0, ..q })
}

// ---- the effects

#[tactic(auto, unfolding(rules::specs::Swis::post_effect))]
pub fn post_effect(swis: &mut Swis, lines: &mut Lines, a: u32) -> Answer
    ensures { with_answer result (swi_queues swis.new lines.new) ≡ post_effect (swi_queues swis.old lines.old) a }
{
    post_swi(swis, lines, a);
    answers::accepted(DONE, 0)
}

// The trigger is v now, and the Swi posted.
#[tactic(auto, unfolding(rules::specs::Swis::change_effect))]
pub fn change_effect(swis: &mut Swis, lines: &mut Lines, a: u32, v: u32) -> Answer
    ensures { with_answer result (swi_queues swis.new lines.new) ≡ change_effect (swi_queues swis.old lines.old) a v }
{
    rows::set_swi(swis, a as usize, TRIGGER, v);
    post_swi(swis, lines, a);
    answers::accepted(DONE, 0)
}

// The trigger is v now, and the Swi posted if that is 0.
#[tactic(auto, unfolding(rules::specs::Swis::zero_effect, rules::specs::Swis::change_effect))]
pub fn zero_effect(swis: &mut Swis, lines: &mut Lines, a: u32, v: u32) -> Answer
    ensures { with_answer result (swi_queues swis.new lines.new) ≡ zero_effect (swi_queues swis.old lines.old) a v }
{
    if v == 0 {
        return change_effect(swis, lines, a, v);
    }
    rows::set_swi(swis, a as usize, TRIGGER, v);
    answers::accepted(DONE, 0)
}

// ---- the calls

// 12: post.
pub fn post(swis: &mut Swis, lines: &mut Lines, q: Call) -> Result<Answer, Refusal>
    ensures leaves { with_answer (answer_said result) (swi_queues swis.new lines.new) ≡ answered (swi_queues swis.old lines.old) (post_call (swi_queues swis.old lines.old) by q) }
    ensures tells { code_said result ≡ code_of (post_call (swi_queues swis.old lines.old) by q).cases }
{
    post_code(swis, q)?;
    Ok(post_effect(swis, lines, q.a))
}

// 13: add one to the trigger and post.
pub fn add(swis: &mut Swis, lines: &mut Lines, q: Call) -> Result<Answer, Refusal>
    ensures leaves { with_answer (answer_said result) (swi_queues swis.new lines.new) ≡ answered (swi_queues swis.old lines.old) (add_call (swi_queues swis.old lines.old) by q) }
    ensures tells { code_said result ≡ code_of (add_call (swi_queues swis.old lines.old) by q).cases }
{
    post_code(swis, q)?;
    let v = rows::swi(swis, q.a as usize, TRIGGER);
    Ok(change_effect(swis, lines, q.a, std::num::wrapping_add_u32(v, 1)))
}

// 14: take one from the trigger and post if it is 0 now.
pub fn take(swis: &mut Swis, lines: &mut Lines, q: Call) -> Result<Answer, Refusal>
    ensures leaves { with_answer (answer_said result) (swi_queues swis.new lines.new) ≡ answered (swi_queues swis.old lines.old) (take_call (swi_queues swis.old lines.old) by q) }
    ensures tells { code_said result ≡ code_of (take_call (swi_queues swis.old lines.old) by q).cases }
{
    post_code(swis, q)?;
    let v = rows::swi(swis, q.a as usize, TRIGGER);
    Ok(zero_effect(swis, lines, q.a, one_down(v)))
}

// 15: set the mask's bits in the trigger and post.
pub fn set_bits(swis: &mut Swis, lines: &mut Lines, q: Call) -> Result<Answer, Refusal>
    ensures leaves { with_answer (answer_said result) (swi_queues swis.new lines.new) ≡ answered (swi_queues swis.old lines.old) (set_bits_call (swi_queues swis.old lines.old) by q) }
    ensures tells { code_said result ≡ code_of (set_bits_call (swi_queues swis.old lines.old) by q).cases }
{
    mask_code(swis, q)?;
    let v = rows::swi(swis, q.a as usize, TRIGGER);
    Ok(change_effect(swis, lines, q.a, v | q.b))
}

// 16: clear the mask's bits in the trigger and post if it is 0 now.
pub fn clear_bits(swis: &mut Swis, lines: &mut Lines, q: Call) -> Result<Answer, Refusal>
    ensures leaves { with_answer (answer_said result) (swi_queues swis.new lines.new) ≡ answered (swi_queues swis.old lines.old) (clear_bits_call (swi_queues swis.old lines.old) by q) }
    ensures tells { code_said result ≡ code_of (clear_bits_call (swi_queues swis.old lines.old) by q).cases }
{
    mask_code(swis, q)?;
    let v = rows::swi(swis, q.a as usize, TRIGGER);
    Ok(zero_effect(swis, lines, q.a, v & !q.b))
}
