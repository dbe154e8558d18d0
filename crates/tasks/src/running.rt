// The calls of the running task on itself: 03 yield, 04 end and 05 sleep. Of each: why it is refused, if it is; its
// effect where it is not; and the call.
ghost use Rattle.std.specs.Prelude.{◌≡◌};
ghost use Rattle.rules.specs.Answer.{code_of, with_answer, answered, ◌by◌};
ghost use Rattle.rules.specs.Tasks.{yield_cases, yield_effect, end_cases, end_effect, sleep_cases, sleep_effect, yield_call, end_call, sleep_call};
ghost use Rattle.rules.specs.Lines.{task_queues};
ghost use Rattle.rules.specs.Refusals.{answer_said, code_said};

use super::table::{current, ended};
use rules::numbers::{DONE, FOREVER, NOW_WAITING, SLEEPING, T};
use rules::{Answer, Call, Lines, Refusal, State, Tasks};

// ---- 03 yield (T)

// 9 while either switch is off.
#[tactic(auto, unfolding(rules::specs::Answer::first_given, rules::specs::Tasks::yield_cases))]
pub fn yield_code(state: &State, x: u32, q: Call) -> Result<(), Refusal>
    ensures { code_said result ≡ code_of (yield_cases state.now x by q) }
{
    if x != T {
        return Err(Refusal::WrongContext);
    }
    if answers::unused(q.a, q.b, q.c, q.d) {
        return Err(Refusal::BadArgument);
    }
    if moves::begins::switch_off(state) {
        return Err(Refusal::SwitchedOff);
    }
    Ok(())
}

// The current task goes to the back of its queue.
#[tactic(auto, unfolding(rules::specs::Tasks::yield_effect))]
pub fn yield_effect(tasks: &mut Tasks, lines: &mut Lines, state: &State) -> Answer
    ensures { with_answer result (task_queues tasks.new lines.new) ≡ yield_effect (task_queues tasks.old lines.old) state.now }
{
    let i = current(state);
    let k = rows::task(tasks, i as usize);
    moves::move_back(tasks, lines, i, k);
    answers::accepted(DONE, 0)
}

// 03 yield.
pub fn yield_task(
    tasks: &mut Tasks,
    lines: &mut Lines,
    state: &State,
    x: u32,
    q: Call,
) -> Result<Answer, Refusal>
    ensures leaves { with_answer (answer_said result) (task_queues tasks.new lines.new)
        ≡ answered (task_queues tasks.old lines.old) (yield_call (task_queues tasks.old lines.old) state.now x by q) }
    ensures tells { code_said result ≡ code_of (yield_call (task_queues tasks.old lines.old) state.now x by q).cases }
{
    yield_code(state, x, q)?;
    Ok(yield_effect(tasks, lines, state))
}

// ---- 04 end (T)

// 5 for task 0, 9 while either switch is off.
#[tactic(auto, unfolding(rules::specs::Answer::first_given, rules::specs::Tasks::end_cases))]
pub fn end_code(state: &State, x: u32, q: Call) -> Result<(), Refusal>
    ensures { code_said result ≡ code_of (end_cases state.now x by q) }
{
    if x != T {
        return Err(Refusal::WrongContext);
    }
    if answers::unused(q.a, q.b, q.c, q.d) {
        return Err(Refusal::BadArgument);
    }
    moves::begins::wait_code(state, true)
}

// The current task is terminated.
#[tactic(auto, unfolding(rules::specs::Tasks::end_effect))]
pub fn end_effect(tasks: &mut Tasks, lines: &mut Lines, state: &State) -> Answer
    ensures { with_answer result (task_queues tasks.new lines.new) ≡ end_effect (task_queues tasks.old lines.old) state.now }
{
    let i = current(state);
    let k = rows::task(tasks, i as usize);
    moves::move_back(tasks, lines, i, ended(k));
    answers::accepted(DONE, 0)
}

// 04 end.
pub fn end(
    tasks: &mut Tasks,
    lines: &mut Lines,
    state: &State,
    x: u32,
    q: Call,
) -> Result<Answer, Refusal>
    ensures leaves { with_answer (answer_said result) (task_queues tasks.new lines.new)
        ≡ answered (task_queues tasks.old lines.old) (end_call (task_queues tasks.old lines.old) state.now x by q) }
    ensures tells { code_said result ≡ code_of (end_call (task_queues tasks.old lines.old) state.now x by q).cases }
{
    end_code(state, x, q)?;
    Ok(end_effect(tasks, lines, state))
}

// ---- 05 sleep (n; T)

// 4 for n = 4,294,967,295; above 0, 5 for task 0 and 9 while either switch is off.
#[tactic(auto, unfolding(rules::specs::Answer::first_given, rules::specs::Tasks::sleep_cases))]
pub fn sleep_code(state: &State, x: u32, q: Call) -> Result<(), Refusal>
    ensures { code_said result ≡ code_of (sleep_cases state.now x by q) }
{
    if x != T {
        return Err(Refusal::WrongContext);
    }
    if (q.a == FOREVER) | answers::unused(0, q.b, q.c, q.d) {
        return Err(Refusal::BadArgument);
    }
    moves::begins::wait_code(state, 0 < q.a)
}

// n = 0 does nothing; else the current task sleeps for n ticks: outcome 2.
#[tactic(auto, unfolding(rules::specs::Tasks::sleep_effect))]
pub fn sleep_effect(tasks: &mut Tasks, lines: &mut Lines, state: &State, n: u32) -> Answer
    ensures { with_answer result (task_queues tasks.new lines.new) ≡ sleep_effect (task_queues tasks.old lines.old) state.now n }
{
    if n == 0 {
        return answers::accepted(DONE, 0);
    }
    moves::wait(tasks, lines, current(state), SLEEPING, 0, n, 0, 0);
    answers::accepted(NOW_WAITING, 0)
}

// 05 sleep.
pub fn sleep(
    tasks: &mut Tasks,
    lines: &mut Lines,
    state: &State,
    x: u32,
    q: Call,
) -> Result<Answer, Refusal>
    ensures leaves { with_answer (answer_said result) (task_queues tasks.new lines.new)
        ≡ answered (task_queues tasks.old lines.old) (sleep_call (task_queues tasks.old lines.old) state.now x by q) }
    ensures tells { code_said result ≡ code_of (sleep_call (task_queues tasks.old lines.old) state.now x by q).cases }
{
    sleep_code(state, x, q)?;
    Ok(sleep_effect(tasks, lines, state, q.a))
}
