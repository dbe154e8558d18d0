// The calls that name a task: 00 create, 01 delete, 02 set priority and 06 last result. Of each: why it is refused, if it
// is; its effect where it is not; and the call. x is who calls: 0 T, 1 S, 2 I; q has the arguments.
ghost use Rattle.std.specs.Prelude.{◌≡◌};
ghost use Rattle.rules.specs.Answer.{code_of, with_answer, answered, ◌by◌};
ghost use Rattle.rules.specs.Lines.{task_queues};
ghost use Rattle.rules.specs.Tasks.{create_cases, create_effect, delete_cases, delete_effect, set_priority_cases, reprioritized, set_priority_effect, last_result_cases};
ghost use Rattle.rules.specs.Tasks.{create_call, delete_call, set_priority_call, last_result_call};
ghost use Rattle.rules.specs.Tables.{LineTable};
ghost use Rattle.rules.specs.Refusals.{answer_said, code_said};

use super::table::{blocked, current, free_task, is_priority, no_task, placed_at, with_priority};
use rules::numbers::{
    DONE, I, INACTIVE, MINUS_ONE, MODE, NOT_IN_USE, T, TASK_PRIORITY, TASK_ROWS, TERMINATED,
};
use rules::{Answer, Call, Lines, Refusal, State, Tasks};

// ---- 00 create (priority; T)

// 4 for a bad priority, 6 where no number is free.
#[tactic(auto, unfolding(rules::specs::Answer::first_given, rules::specs::Tasks::create_cases))]
pub fn create_code(tasks: &Tasks, state: &State, x: u32, q: Call) -> Result<(), Refusal>
    ensures { code_said result ≡ code_of (create_cases tasks.now state.now x by q) }
{
    if x != T {
        return Err(Refusal::WrongContext);
    }
    if !is_priority(rows::readings::levels(state), q.a) | answers::unused(0, q.b, q.c, q.d) {
        return Err(Refusal::BadArgument);
    }
    if free_task(tasks) == TASK_ROWS {
        return Err(Refusal::NoneFree);
    }
    Ok(())
}

// A task at the lowest free number, ready at once unless at -1: value its number.
#[tactic(auto, unfolding(rules::specs::Tasks::create_effect))]
pub fn create_effect(tasks: &mut Tasks, lines: &mut Lines, a: u32) -> Answer
    ensures { with_answer result (task_queues tasks.new lines.new) ≡ create_effect (task_queues tasks.old lines.old) a }
{
    let i = free_task(tasks) as u32;
    moves::move_back(tasks, lines, i, placed_at(no_task(), a));
    answers::accepted(DONE, i)
}

// 00 create.
pub fn create(
    tasks: &mut Tasks,
    lines: &mut Lines,
    state: &State,
    x: u32,
    q: Call,
) -> Result<Answer, Refusal>
    ensures leaves { with_answer (answer_said result) (task_queues tasks.new lines.new)
        ≡ answered (task_queues tasks.old lines.old) (create_call (task_queues tasks.old lines.old) state.now x by q) }
    ensures tells { code_said result ≡ code_of (create_call (task_queues tasks.old lines.old) state.now x by q).cases }
{
    create_code(tasks, state, x, q)?;
    Ok(create_effect(tasks, lines, q.a))
}

// ---- 01 delete (task; T)

// 5 but for a terminated or inactive task.
#[tactic(auto, unfolding(rules::specs::Answer::first_given, rules::specs::Tasks::delete_cases, rules::specs::Answer::absent_code, rules::specs::Tables::task))]
pub fn delete_code(tasks: &Tasks, x: u32, q: Call) -> Result<(), Refusal>
    ensures { code_said result ≡ code_of (delete_cases tasks.now x by q) }
{
    if x != T {
        return Err(Refusal::WrongContext);
    }
    let mode = rows::task_word(tasks, q.a as usize, MODE);
    if mode == NOT_IN_USE {
        return Err(answers::absent(q.a, rules::numbers::TASK_COUNT));
    }
    if answers::unused(0, q.b, q.c, q.d) {
        return Err(Refusal::BadArgument);
    }
    if !((mode == TERMINATED) | (mode == INACTIVE)) {
        return Err(Refusal::Forbidden);
    }
    Ok(())
}

// The number is free again. No line is touched: such a task stands in none.
#[tactic(auto, unfolding(rules::specs::Tasks::delete_effect))]
pub fn delete_effect(tasks: &mut Tasks, a: u32) -> Answer
    ensures { (ls : LineTable) → with_answer result (task_queues tasks.new ls) ≡ delete_effect (task_queues tasks.old ls) a }
{
    rows::set_task(tasks, a as usize, no_task());
    answers::accepted(DONE, 0)
}

// 01 delete.
pub fn delete(tasks: &mut Tasks, x: u32, q: Call) -> Result<Answer, Refusal>
    ensures leaves { (ls : LineTable) → with_answer (answer_said result) (task_queues tasks.new ls)
        ≡ answered (task_queues tasks.old ls) (delete_call (task_queues tasks.old ls) x by q) }
    ensures tells { code_said result ≡ code_of (delete_cases tasks.old x by q) }
{
    delete_code(tasks, x, q)?;
    Ok(delete_effect(tasks, q.a))
}

// ---- 02 set priority (task, priority; T S)

// 5 for task 0, a terminated task, or -1 for the current or a blocked task.
#[tactic(auto, unfolding(rules::specs::Answer::first_given, rules::specs::Tasks::set_priority_cases, rules::specs::Answer::absent_code, rules::specs::Tables::task))]
pub fn set_priority_code(tasks: &Tasks, state: &State, x: u32, q: Call) -> Result<(), Refusal>
    ensures { code_said result ≡ code_of (set_priority_cases tasks.now state.now x by q) }
{
    if x == I {
        return Err(Refusal::WrongContext);
    }
    let mode = rows::task_word(tasks, q.a as usize, MODE);
    if mode == NOT_IN_USE {
        return Err(answers::absent(q.a, rules::numbers::TASK_COUNT));
    }
    if !is_priority(rows::readings::levels(state), q.b) | answers::unused(0, 0, q.c, q.d) {
        return Err(Refusal::BadArgument);
    }
    if (q.a == 0) | (mode == TERMINATED) {
        return Err(Refusal::Forbidden);
    }
    if (q.b == MINUS_ONE) & ((q.a == current(state)) | blocked(mode)) {
        return Err(Refusal::Forbidden);
    }
    Ok(())
}

// The same priority changes nothing; a blocked task keeps its place in line; a ready or inactive
// one joins the new queue at the back, or is inactive at -1.
#[tactic(auto, unfolding(rules::specs::Tasks::reprioritized))]
pub fn reprioritize(tasks: &mut Tasks, lines: &mut Lines, a: u32, p: u32)
    ensures { task_queues tasks.new lines.new ≡ reprioritized (task_queues tasks.old lines.old) a p }
{
    let old = rows::task(tasks, a as usize);
    if p != old.priority {
        if blocked(old.mode) {
            rows::set_task(tasks, a as usize, with_priority(old, p));
        } else {
            moves::move_back(tasks, lines, a, placed_at(old, p));
        }
    }
}

// Value the old priority.
#[tactic(auto, unfolding(rules::specs::Tasks::set_priority_effect, rules::specs::Tables::task))]
pub fn set_priority_effect(tasks: &mut Tasks, lines: &mut Lines, a: u32, b: u32) -> Answer
    ensures { with_answer result (task_queues tasks.new lines.new) ≡ set_priority_effect (task_queues tasks.old lines.old) a b }
{
    let old = rows::task_word(tasks, a as usize, TASK_PRIORITY);
    reprioritize(tasks, lines, a, b);
    answers::accepted(DONE, old)
}

// 02 set priority.
pub fn set_priority(
    tasks: &mut Tasks,
    lines: &mut Lines,
    state: &State,
    x: u32,
    q: Call,
) -> Result<Answer, Refusal>
    ensures leaves { with_answer (answer_said result) (task_queues tasks.new lines.new)
        ≡ answered (task_queues tasks.old lines.old) (set_priority_call (task_queues tasks.old lines.old) state.now x by q) }
    ensures tells { code_said result ≡ code_of (set_priority_call (task_queues tasks.old lines.old) state.now x by q).cases }
{
    set_priority_code(tasks, state, x, q)?;
    Ok(set_priority_effect(tasks, lines, q.a, q.b))
}

// ---- 06 last result (task; T S I)

// 3 for a number outside the table, 11 for a task not in use.
#[tactic(auto, unfolding(rules::specs::Answer::first_given, rules::specs::Tasks::last_result_cases, rules::specs::Answer::absent_code, rules::specs::Tables::task))]
pub fn last_result_code(tasks: &Tasks, q: Call) -> Result<(), Refusal>
    ensures { code_said result ≡ code_of (last_result_cases tasks.now by q) }
{
    if rows::task_word(tasks, q.a as usize, MODE) == NOT_IN_USE {
        return Err(answers::absent(q.a, rules::numbers::TASK_COUNT));
    }
    if answers::unused(0, q.b, q.c, q.d) {
        return Err(Refusal::BadArgument);
    }
    Ok(())
}

// 06 last result: outcome and value of its last ended wait or sleep. Nothing is changed.
#[tactic(auto, unfolding(rules::specs::Tasks::last_result_effect))]
pub fn last_result(tasks: &Tasks, q: Call) -> Result<Answer, Refusal>
    ensures leaves { (ls : LineTable) → with_answer (answer_said result) (task_queues tasks.now ls)
        ≡ answered (task_queues tasks.now ls) (last_result_call (task_queues tasks.now ls) by q) }
    ensures tells { code_said result ≡ code_of (last_result_cases tasks.now by q) }
{
    last_result_code(tasks, q)?;
    let k = rows::task(tasks, q.a as usize);
    Ok(answers::accepted(k.outcome, k.value))
}
