// 22 pend: whether it is refused, and why; its effect where it is accepted; and the call.
ghost use Rattle.std.specs.Prelude.{◌≡◌};
ghost use Rattle.rules.specs.Answer.{with_answer, answered, code_of, ◌by◌};
ghost use Rattle.rules.specs.Tables.{task, at_semaphore};
ghost use Rattle.rules.specs.Lines.{moved, task_queues};
ghost use Rattle.rules.specs.Waits.{waiting, wait_tables};
ghost use Rattle.rules.specs.Semaphores.{pend_waits, place_in, pend_cases, pend_effect, pend_call};
ghost use Rattle.rules.specs.Refusals.{answer_said, code_said};

use rules::numbers::{AT_SEMAPHORE, BY_PRIORITY, COUNT, DONE, KIND, NOT_MET, NOW_WAITING, USED};
use rules::{Answer, Call, Lines, Refusal, Semaphores, State, Tasks};

// ---- 22: pend, with a limit

// The call would go on to wait. Stays beside its likes of other kinds: one test each, of another word.
#[tactic(auto, unfolding(rules::specs::Semaphores::pend_waits))]
pub fn pend_waits(semaphores: &Semaphores, a: u32, limit: u32) -> bool
    ensures { result ≡ pend_waits semaphores.now a limit }
{
    (rows::semaphore(semaphores, a as usize, COUNT) == 0) & (limit != 0)
}

#[tactic(auto, unfolding(rules::specs::Answer::first_given, rules::specs::Answer::absent_code, rules::specs::Semaphores::pend_cases))]
pub fn pend_code(semaphores: &Semaphores, state: &State, x: u32, q: Call) -> Result<(), Refusal>
    ensures { code_said result ≡ code_of (pend_cases semaphores.now state.now x by q) }
{
    if moves::begins::outside(x, q.b) {
        return Err(Refusal::WrongContext);
    }
    if rows::semaphore(semaphores, q.a as usize, USED) == 0 {
        return Err(answers::absent(q.a, rules::numbers::SEMAPHORE_COUNT));
    }
    if answers::unused(0, 0, q.c, q.d) {
        return Err(Refusal::BadArgument);
    }
    let begins = pend_waits(semaphores, q.a, q.b);
    moves::begins::wait_code(state, begins)
}

// Task i waits at semaphore a: in arrival order, or before the first waiter of lower priority.
pub fn begin(tasks: &mut Tasks, lines: &mut Lines, kind: u32, i: u32, a: u32, limit: u32)
    ensures { task_queues tasks.new lines.new
        ≡ moved (place_in kind tasks.old (task tasks.old i).priority) i (waiting (task tasks.old i) at_semaphore a limit 0 0)
        (task_queues tasks.old lines.old) }
{
    let old = rows::task(tasks, i as usize);
    let k = moves::waiting(old, AT_SEMAPHORE, a, limit, 0, 0);
    if kind < BY_PRIORITY {
        moves::move_back(tasks, lines, i, k);
    } else {
        moves::move_by_priority(tasks, lines, i, k, old.priority);
    }
}

// Takes one, or is not met, or the current task waits.
#[tactic(auto, unfolding(rules::specs::Semaphores::pend_effect))]
pub fn pend_effect(
    tasks: &mut Tasks,
    lines: &mut Lines,
    semaphores: &mut Semaphores,
    state: &State,
    a: u32,
    limit: u32,
) -> Answer
    ensures { with_answer result (wait_tables tasks.new lines.new semaphores.new) ≡ pend_effect (wait_tables tasks.old lines.old semaphores.old) state.now a limit }
{
    let n = rows::semaphore(semaphores, a as usize, COUNT);
    if 0 < n {
        rows::set_semaphore(semaphores, a as usize, COUNT, n - 1);
        return answers::accepted(DONE, 0);
    }
    if limit == 0 {
        return answers::accepted(NOT_MET, 0);
    }
    let kind = rows::semaphore(semaphores, a as usize, KIND);
    let i = u32::from(rows::readings::current(state));
    begin(tasks, lines, kind, i, a, limit);
    answers::accepted(NOW_WAITING, 0)
}

pub fn pend(
    tasks: &mut Tasks,
    lines: &mut Lines,
    semaphores: &mut Semaphores,
    state: &State,
    x: u32,
    q: Call,
) -> Result<Answer, Refusal>
    ensures leaves { with_answer (answer_said result) (wait_tables tasks.new lines.new semaphores.new)
        ≡ answered (wait_tables tasks.old lines.old semaphores.old) (pend_call (wait_tables tasks.old lines.old semaphores.old) state.now x by q) }
    ensures tells { code_said result ≡ code_of (pend_call (wait_tables tasks.old lines.old semaphores.old) state.now x by q).cases }
{
    pend_code(semaphores, state, x, q)?;
    Ok(pend_effect(tasks, lines, semaphores, state, q.a, q.b))
}
