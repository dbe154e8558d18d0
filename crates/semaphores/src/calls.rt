// Calls 20, 21 and 24. Of each: whether it is refused, and why; its effect where it is accepted; and the call.
ghost use Rattle.std.specs.Prelude.{◌≡◌, not, ◌||◌, ltb, leb};
ghost use Rattle.rules.specs.Answer.{with_answer, answered, code_of, unused, ◌by◌};
ghost use Rattle.rules.specs.Waits.{wait_tables};
ghost use Rattle.rules.specs.Semaphores.{most, create_cases, create_effect, delete_cases, delete_effect, reset_cases, reset_effect, create_call, delete_call};
ghost use Rattle.rules.specs.Semaphores.{reset_call};
ghost use Rattle.rules.specs.Tables.{TaskTable, LineTable};
ghost use Rattle.rules.specs.Refusals.{answer_said, code_said};

use super::table::{free_semaphore, put_semaphore};
use rules::numbers::{COUNT, DONE, KIND, KIND_COUNT, SEMAPHORE_ROWS, T, USED};
use rules::{Answer, Call, Lines, Refusal, Semaphores};

// ---- 20: create, of a kind, with a count

// The kind or the count is bad, or an unused argument is not 0.
pub fn bad_create(q: Call) -> bool
    ensures { result ≡ (not (ltb q.a 4) || not (leb q.b (most q.a)) || unused 0 0 q.c q.d) }
{
    !(q.a < KIND_COUNT) | !(q.b <= rows::readings::most(q.a)) | answers::unused(0, 0, q.c, q.d)
}

#[tactic(auto, unfolding(rules::specs::Answer::first_given, rules::specs::Semaphores::create_cases))]
pub fn create_code(semaphores: &Semaphores, x: u32, q: Call) -> Result<(), Refusal>
    ensures { code_said result ≡ code_of (create_cases semaphores.now x by q) }
{
    if x != T {
        return Err(Refusal::WrongContext);
    }
    if bad_create(q) {
        return Err(Refusal::BadArgument);
    }
    if free_semaphore(semaphores) == SEMAPHORE_ROWS {
        return Err(Refusal::NoneFree);
    }
    Ok(())
}

// The tasks and the lines stay, whatever they are.
#[tactic(auto, unfolding(rules::specs::Semaphores::create_effect))]
pub fn create_effect(semaphores: &mut Semaphores, a: u32, b: u32) -> Answer
    ensures { (ts : TaskTable) (ls : LineTable) → with_answer result (wait_tables ts ls semaphores.new)
        ≡ create_effect (wait_tables ts ls semaphores.old) a b }
{
    let i = free_semaphore(semaphores);
    put_semaphore(semaphores, i, 1, a, b);
    answers::accepted(DONE, i as u32)
}

pub fn create(semaphores: &mut Semaphores, x: u32, q: Call) -> Result<Answer, Refusal>
    ensures leaves { (ts : TaskTable) (ls : LineTable) → with_answer (answer_said result) (wait_tables ts ls semaphores.new)
        ≡ answered (wait_tables ts ls semaphores.old) (create_call (wait_tables ts ls semaphores.old) x by q) }
    ensures tells { code_said result ≡ code_of (create_cases semaphores.old x by q) }
{
    create_code(semaphores, x, q)?;
    Ok(create_effect(semaphores, q.a, q.b))
}

// ---- 21: delete

// Stays beside the deletes of other kinds: each reads another table, and only where the tests before it passed.
#[tactic(auto, unfolding(rules::specs::Answer::first_given, rules::specs::Answer::absent_code, rules::specs::Semaphores::delete_cases))]
pub fn delete_code(lines: &Lines, semaphores: &Semaphores, x: u32, q: Call) -> Result<(), Refusal>
    ensures { code_said result ≡ code_of (delete_cases lines.now semaphores.now x by q) }
{
    if x != T {
        return Err(Refusal::WrongContext);
    }
    let i = q.a as usize;
    if rows::semaphore(semaphores, i, USED) == 0 {
        return Err(answers::absent(q.a, rules::numbers::SEMAPHORE_COUNT));
    }
    if answers::unused(0, q.b, q.c, q.d) {
        return Err(Refusal::BadArgument);
    }
    if lines::anyone(lines, i) {
        return Err(Refusal::Forbidden);
    }
    Ok(())
}

// The row is all 0.
#[tactic(auto, unfolding(rules::specs::Semaphores::delete_effect))]
pub fn delete_effect(semaphores: &mut Semaphores, a: u32) -> Answer
    ensures { (ts : TaskTable) (ls : LineTable) → with_answer result (wait_tables ts ls semaphores.new)
        ≡ delete_effect (wait_tables ts ls semaphores.old) a }
{
    put_semaphore(semaphores, a as usize, 0, 0, 0);
    answers::accepted(DONE, 0)
}

pub fn delete(
    lines: &Lines,
    semaphores: &mut Semaphores,
    x: u32,
    q: Call,
) -> Result<Answer, Refusal>
    ensures leaves { (ts : TaskTable) → with_answer (answer_said result) (wait_tables ts lines.now semaphores.new)
        ≡ answered (wait_tables ts lines.now semaphores.old) (delete_call (wait_tables ts lines.now semaphores.old) x by q) }
    ensures tells { code_said result ≡ code_of (delete_cases lines.now semaphores.old x by q) }
{
    delete_code(lines, semaphores, x, q)?;
    Ok(delete_effect(semaphores, q.a))
}

// ---- 24: reset, to a count as in 20

// The count is bad for a semaphore of this kind, or an unused argument is not 0.
pub fn bad_reset(kind: u32, count: u32, c: u32, d: u32) -> bool
    ensures { result ≡ (not (leb count (most kind)) || unused 0 0 c d) }
{
    !(count <= rows::readings::most(kind)) | answers::unused(0, 0, c, d)
}

#[tactic(auto, unfolding(rules::specs::Answer::first_given, rules::specs::Answer::absent_code, rules::specs::Semaphores::reset_cases))]
pub fn reset_code(lines: &Lines, semaphores: &Semaphores, x: u32, q: Call) -> Result<(), Refusal>
    ensures { code_said result ≡ code_of (reset_cases lines.now semaphores.now x by q) }
{
    if x != T {
        return Err(Refusal::WrongContext);
    }
    let i = q.a as usize;
    if rows::semaphore(semaphores, i, USED) == 0 {
        return Err(answers::absent(q.a, rules::numbers::SEMAPHORE_COUNT));
    }
    if bad_reset(rows::semaphore(semaphores, i, KIND), q.b, q.c, q.d) {
        return Err(Refusal::BadArgument);
    }
    if lines::anyone(lines, i) {
        return Err(Refusal::Forbidden);
    }
    Ok(())
}

#[tactic(auto, unfolding(rules::specs::Semaphores::reset_effect))]
pub fn reset_effect(semaphores: &mut Semaphores, a: u32, b: u32) -> Answer
    ensures { (ts : TaskTable) (ls : LineTable) → with_answer result (wait_tables ts ls semaphores.new)
        ≡ reset_effect (wait_tables ts ls semaphores.old) a b }
{
    rows::set_semaphore(semaphores, a as usize, COUNT, b);
    answers::accepted(DONE, 0)
}

pub fn reset(lines: &Lines, semaphores: &mut Semaphores, x: u32, q: Call) -> Result<Answer, Refusal>
    ensures leaves { (ts : TaskTable) → with_answer (answer_said result) (wait_tables ts lines.now semaphores.new)
        ≡ answered (wait_tables ts lines.now semaphores.old) (reset_call (wait_tables ts lines.now semaphores.old) x by q) }
    ensures tells { code_said result ≡ code_of (reset_cases lines.now semaphores.old x by q) }
{
    reset_code(lines, semaphores, x, q)?;
    Ok(reset_effect(semaphores, q.a, q.b))
}
