// A task's row, what the calls look at, and the rows that they leave.
ghost use Rattle.std.specs.Prelude.{◌≡◌, cond as if, eqb, ◌≤◌};
ghost use Rattle.rules.specs.Tables.{minus_one, ready, inactive, no_task, current};
ghost use Rattle.rules.specs.Tasks.{is_priority, free_task, blocked, placed_at, with_priority, ended};

use rules::numbers::{
    INACTIVE, MINUS_ONE, MODE, NOT_IN_USE, READY, SLEEPING, TASK_ROWS_U8, TASK_WIDTH_U8,
    TERMINATED, WRITING,
};
use rules::{State, Task, Tasks};

// ---- what several calls look at

// A priority that a task may have with n levels: -1, or 1 to n - 1.
#[tactic(auto, unfolding(rules::specs::Tasks::is_priority))]
pub fn is_priority(n: u32, p: u32) -> bool
    ensures { result ≡ is_priority n p }
{
    (p == MINUS_ONE) | ((0 < p) & (p < n))
}

// The lowest free number; 32 where none is free. Stays a number, and no Option: `free_task` of rules/specs is that number.
#[tactic(auto, unfolding(rules::specs::Tasks::free_task, rules::specs::Tables::task))]
pub fn free_task(tasks: &Tasks) -> usize
    ensures { (result ≡ free_task tasks.now) × (result ≤ 32) }
{
    rows::first_zero(tasks, TASK_WIDTH_U8, TASK_ROWS_U8, MODE)
}

// A task of this mode is blocked: it sleeps or waits.
pub fn blocked(mode: u32) -> bool
    ensures { result ≡ blocked mode }
{
    (SLEEPING <= mode) & (mode <= WRITING)
}

// The current task.
pub fn current(state: &State) -> u32
    ensures { result ≡ current state.now }
{
    u32::from(rows::readings::current(state))
}

// ---- rows

// The row of a number that is not in use.
pub fn no_task() -> Task
    ensures { result ≡ no_task }
{
    Task {
        mode: NOT_IN_USE,
        priority: 0,
        object: 0,
        left: 0,
        held: 0,
        mask: 0,
        outcome: 0,
        value: 0,
    }
}

// The mode of a task that is not blocked: inactive at priority -1, else ready.
fn mode_at(p: u32) -> u32
    ensures { result ≡ if (eqb p minus_one) inactive ready }
{
    if p == MINUS_ONE {
        return INACTIVE;
    }
    READY
}

// The row of a ready or inactive task with this priority.
pub fn placed_at(k: Task, p: u32) -> Task
    ensures { result ≡ placed_at k p }
{
    Task {
        mode: mode_at(p),
        priority: p,
        ..k
    }
}

// The row with another priority.
pub fn with_priority(k: Task, p: u32) -> Task
    ensures { result ≡ with_priority k p }
{
    Task { priority: p, ..k }
}

// The row of a terminated task: priority and last result kept.
pub fn ended(k: Task) -> Task
    ensures { result ≡ ended k }
{
    Task {
        mode: TERMINATED,
        object: 0,
        left: 0,
        held: 0,
        mask: 0,
        ..k
    }
}
