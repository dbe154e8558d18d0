// 23 post: whether it is refused, and why; its effect where it is accepted; and the call.
ghost use Rattle.std.specs.Prelude.{◌≡◌, not, ◌&&◌, leb};
ghost use Rattle.rules.specs.Answer.{with_answer, answered, code_of, ◌by◌};
ghost use Rattle.rules.specs.Tables.{semaphore, KIND, COUNT};
ghost use Rattle.rules.specs.Semaphores.{count_up, is_binary, post_cases, post_effect, post_call};
ghost use Rattle.rules.specs.Waits.{wait_tables};
ghost use Rattle.rules.specs.Refusals.{answer_said, code_said};

use rules::numbers::{COUNT, COUNT_MOST, DONE, KIND, USED};
use rules::{Answer, Call, Lines, Refusal, Semaphores, Tasks};

// One up, and no more than the kind's most.
#[tactic(auto, unfolding(rules::specs::Semaphores::count_up))]
pub fn count_up(kind: u32, n: u32) -> u32
    ensures { result ≡ count_up kind n }
{
    if n < rows::readings::most(kind) {
        return n + 1;
    }
    n
}

// ---- 23: post

// A counting semaphore's count is at its end.
pub fn at_end(semaphores: &Semaphores, a: u32) -> bool
    ensures { result ≡ (not (is_binary (semaphore semaphores.now a KIND)) && leb 65535 (semaphore semaphores.now a COUNT)) }
{
    let i = a as usize;
    let counting = !rows::readings::is_binary(rows::semaphore(semaphores, i, KIND));
    counting & (COUNT_MOST <= rows::semaphore(semaphores, i, COUNT))
}

#[tactic(auto, unfolding(rules::specs::Answer::first_given, rules::specs::Answer::absent_code, rules::specs::Semaphores::post_cases))]
pub fn post_code(semaphores: &Semaphores, q: Call) -> Result<(), Refusal>
    ensures { code_said result ≡ code_of (post_cases semaphores.now by q) }
{
    if rows::semaphore(semaphores, q.a as usize, USED) == 0 {
        return Err(answers::absent(q.a, rules::numbers::SEMAPHORE_COUNT));
    }
    if answers::unused(0, q.b, q.c, q.d) {
        return Err(Refusal::BadArgument);
    }
    if at_end(semaphores, q.a) {
        return Err(Refusal::AtEnd);
    }
    Ok(())
}

// The first waiter ready, and its number the value; or value 0 and the count one up.
#[tactic(auto, unfolding(rules::specs::Semaphores::post_effect))]
pub fn post_effect(
    tasks: &mut Tasks,
    lines: &mut Lines,
    semaphores: &mut Semaphores,
    a: u32,
) -> Answer
    ensures { with_answer result (wait_tables tasks.new lines.new semaphores.new) ≡ post_effect (wait_tables tasks.old lines.old semaphores.old) a }
{
    let i = a as usize;
    if lines::anyone(lines, i) {
        return moves::wake_first(tasks, lines, i, 0);
    }
    let kind = rows::semaphore(semaphores, i, KIND);
    let n = rows::semaphore(semaphores, i, COUNT);
    rows::set_semaphore(semaphores, i, COUNT, count_up(kind, n));
    answers::accepted(DONE, 0)
}

pub fn post(
    tasks: &mut Tasks,
    lines: &mut Lines,
    semaphores: &mut Semaphores,
    q: Call,
) -> Result<Answer, Refusal>
    ensures leaves { with_answer (answer_said result) (wait_tables tasks.new lines.new semaphores.new)
        ≡ answered (wait_tables tasks.old lines.old semaphores.old) (post_call (wait_tables tasks.old lines.old semaphores.old) by q) }
    ensures tells { code_said result ≡ code_of (post_call (wait_tables tasks.old lines.old semaphores.old) by q).cases }
{
    post_code(semaphores, q)?;
    Ok(post_effect(tasks, lines, semaphores, q.a))
}
