// A task leaves its line, gets a new row, and enters the line of that row.
#![tactic(auto)]

pub mod begins;

ghost use Rattle.std.specs.Prelude.{◌≡◌, List, ℕ};
ghost use Rattle.rules.specs.Answer.{with_answer};
ghost use Rattle.rules.specs.Tables.{task};
ghost use Rattle.rules.specs.Lines.{line, moved, at_back, by_priority, entered, task_queues};
ghost use Rattle.rules.specs.Waits.{waiting, woken, wait_tables, wakes_first};

use rules::numbers::{DONE, READY, TASK_COUNT, TASK_PRIORITY};
use rules::{Answer, Lines, Task, Tasks};

// How many stand in line j before the first of a priority lower than p.
pub fn place(tasks: &Tasks, lines: &Lines, j: usize, p: u32) -> usize
    ensures { result ≡ by_priority tasks.now p (line lines.now j) }
{
    let n = lines::len(lines, j);
    for k in 0..n {
        let m = lines::member(lines, j, k);
        if rows::task_word(tasks, basics::wide(m), TASK_PRIORITY) < p {
            return k;
        }
    }
    n
}

// x into line j before the first of a priority lower than p.
#[tactic(auto, unfolding(rules::specs::Lines::entered))]
pub fn enter_by_priority(tasks: &Tasks, lines: &mut Lines, j: usize, x: u8, p: u32)
    ensures { lines.new ≡ entered (by_priority tasks.now p) j x lines.old }
{
    let at = place(tasks, lines, j, p);
    lines::insert(lines, j, at, x);
}

// Task i, with the row k, goes to k's line, at the back.
#[tactic(auto, unfolding(rules::specs::Lines::moved))]
pub fn move_back(tasks: &mut Tasks, lines: &mut Lines, i: u32, k: Task)
    ensures { task_queues tasks.new lines.new ≡ moved at_back i k (task_queues tasks.old lines.old) }
{
    if i < TASK_COUNT {
        let old = rows::task(tasks, i as usize);
        lines::leave(lines, lines::home_of(old), i as u8);
        lines::join(lines, lines::home_of(k), i as u8);
        rows::set_task(tasks, i as usize, k);
    }
}

// The same, before the first of a priority lower than p. Stays beside `move_back`: a parameter for how the line is entered would need a promise of
// its own, and be no plainer.
#[tactic(auto, unfolding(rules::specs::Lines::moved))]
pub fn move_by_priority(tasks: &mut Tasks, lines: &mut Lines, i: u32, k: Task, p: u32)
    ensures { task_queues tasks.new lines.new ≡ moved (by_priority tasks.old p) i k (task_queues tasks.old lines.old) }
{
    if i < TASK_COUNT {
        let was = rows::task(tasks, i as usize);
        lines::leave(lines, lines::home_of(was), i as u8);
        enter_by_priority(tasks, lines, lines::home_of(k), i as u8, p);
        rows::set_task(tasks, i as usize, k);
    }
}

// Task i's wait ends with an outcome and a value: it is ready, at the back of its queue.
pub fn wake(tasks: &mut Tasks, lines: &mut Lines, i: u32, outcome: u32, value: u32)
    ensures { task_queues tasks.new lines.new ≡ woken i outcome value (task_queues tasks.old lines.old) }
{
    let old = rows::task(tasks, i as usize);
    let k = Task {
        mode: READY,
        priority: old.priority,
        object: 0,
        left: 0,
        held: 0,
        mask: 0,
        outcome,
        value,
    };
    move_back(tasks, lines, i, k);
}

// The first in line j is woken by a post, its wait done with this value. The answer's value is its number.
pub fn wake_first(tasks: &mut Tasks, lines: &mut Lines, j: usize, value: u32) -> Answer
    ensures { (os : List ℕ) → with_answer result (wait_tables tasks.new lines.new os) ≡ wakes_first j value (wait_tables tasks.old lines.old os) }
{
    let i = lines::first(lines, j) as u32;
    wake(tasks, lines, i, DONE, value);
    answers::accepted(DONE, i)
}

// A task's row once it waits in this mode, at this object, with this limit, holding a word or two masks.
pub fn waiting(k: Task, mode: u32, object: u32, limit: u32, held: u32, mask: u32) -> Task
    ensures { result ≡ waiting k mode object limit held mask }
{
    Task {
        mode,
        object,
        left: begins::ticks_for(limit),
        held,
        mask,
        ..k
    }
}

// Task i begins to wait, at the back of its line.
pub fn wait(
    tasks: &mut Tasks,
    lines: &mut Lines,
    i: u32,
    mode: u32,
    object: u32,
    limit: u32,
    held: u32,
    mask: u32,
)
    ensures { task_queues tasks.new lines.new ≡ moved at_back i (waiting (task tasks.old i) mode object limit held mask) (task_queues tasks.old lines.old) }
{
    let old = rows::task(tasks, i as usize);
    move_back(
        tasks,
        lines,
        i,
        waiting(old, mode, object, limit, held, mask),
    );
}
