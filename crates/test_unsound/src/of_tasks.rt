// Changes that break the rules of the state and of tasks.
use super::calls::begin;
use super::changes::Row;
use super::sets::wide;
use rules::Tables;
use rules::numbers::{
    CURRENT, DEPTH, DEPTH_END, EVENT_COUNT, FEW_LEVELS, FOREVER, HELD, INACTIVE, LEVELS, MASK,
    MINUS_ONE, MODE, MOST_LEVELS, NOW_WAITING, OBJECT, OUTCOME, READY_LINES, SEMAPHORE_COUNT,
    SLEEPING, SWIS, TASK_COUNT, TASK_LEFT, TASK_PRIORITY, TASKS, VALUE,
};

// The words of a task behind its mode.
const BEHIND_MODE: [usize; 7] = [TASK_PRIORITY, OBJECT, TASK_LEFT, HELD, MASK, OUTCOME, VALUE];

// The words of a task that waits.
const OF_A_WAIT: [usize; 4] = [OBJECT, TASK_LEFT, HELD, MASK];

// The rules of the state and of tasks, broken one after the other.
pub(crate) fn break_all(rt: &HostRuntime, t: Tables) {
    states(rt, t);
    idle(rt, t);
    ranges(rt, t);
    levels(rt, wide());
    without_meaning(rt, t);
    waits(rt, t);
}

// "Interrupt depth 0 to 8; a switch for Swis and one for tasks"; "The current task is ready"; No. 14: "The number of levels, 16 or 32"
fn states(rt: &HostRuntime, t: Tables) {
    let mut trials = begin(rt, b"unsound state", t);
    trials.row(Row::State, &[DEPTH], &[DEPTH_END]);
    trials.row(Row::State, &[SWIS, TASKS], &[2]);
    // no task's number; asleep, and terminated
    trials.row(Row::State, &[CURRENT], &[TASK_COUNT, 2, 7]);
    trials.row(Row::State, &[LEVELS], &[0, 15, 17, 31, 33]);
}

// "task 0 is as said": "the idle task, priority 0, always ready"; it never waited
fn idle(rt: &HostRuntime, t: Tables) {
    let mut trials = begin(rt, b"unsound task 0", t);
    trials.row(Row::Task(0), &[MODE], &[SLEEPING]);
    trials.row(Row::Task(0), &BEHIND_MODE, &[1]);
}

// "All numbers are in this page's ranges": modes, priorities, last results
fn ranges(rt: &HostRuntime, t: Tables) {
    let mut trials = begin(rt, b"unsound tasks", t);
    trials.row(Row::Task(1), &[MODE], &[INACTIVE + 1]);
    // "Task priorities -1 and 1 to 15", and "inactive (exactly at -1)": ready, asleep and terminated tasks
    trials.row(Row::Task(1), &[TASK_PRIORITY], &[0, FEW_LEVELS]);
    trials.tasks(&[2], TASK_PRIORITY, 0);
    trials.tasks(&[7], TASK_PRIORITY, MINUS_ONE);
    trials.tasks(&[8], TASK_PRIORITY, 5);
    // an ended wait was done or not met, and "an expired one outcome 1, value 0"
    trials.row(Row::Task(7), &[OUTCOME], &[NOW_WAITING]);
    trials.row(Row::Task(7), &[VALUE], &[1]);
}

// No. 14: "With 32, priorities run to 31"; in tables with 32 levels
fn levels(rt: &HostRuntime, t: Tables) {
    let mut trials = begin(rt, b"unsound levels", t);
    // ready, asleep and terminated tasks
    trials.tasks(&[1, 2, 7], TASK_PRIORITY, MOST_LEVELS);
    trials.tasks(&[2], TASK_PRIORITY, 0);
    // priorities 31 and 16 with 16 levels; and another number of levels
    trials.row(Row::State, &[LEVELS], &[FEW_LEVELS, 17]);
    // a queue above 15: task 9, which is ready at 3; nobody any more; one who is not ready
    trials.joined(READY_LINES + 16, &[9]);
    trials.emptied(&[READY_LINES + 31]);
    trials.joined(READY_LINES + 31, &[2]);
}

// "Records not in use are all 0, and so are fields without meaning at the time (.., an ended wait's data, ..)"
fn without_meaning(rt: &HostRuntime, t: Tables) {
    let mut trials = begin(rt, b"unsound fields without meaning", t);
    // not in use: every word behind the mode
    trials.row(Row::Task(10), &BEHIND_MODE, &[1]);
    // ready, terminated, inactive: at no object, no ticks, no data
    trials.row(Row::Task(1), &OF_A_WAIT, &[1]);
    trials.row(Row::Task(7), &OF_A_WAIT, &[1]);
    trials.row(Row::Task(8), &OF_A_WAIT, &[1]);
    // asleep: at no object, with no data
    trials.row(Row::Task(2), &[OBJECT, HELD, MASK], &[1]);
    // at a semaphore, and a reader: no masks and no word; a writer: no second word
    trials.row(Row::Task(3), &[HELD, MASK], &[1]);
    trials.row(Row::Task(5), &[HELD, MASK], &[1]);
    trials.row(Row::Task(6), &[MASK], &[1]);
}

// Waits: at an object that there is; "sleeps (always limited) and limited waits have 1 or more ticks left", without end none are kept
fn waits(rt: &HostRuntime, t: Tables) {
    let mut trials = begin(rt, b"unsound waits", t);
    trials.tasks(&[2], TASK_LEFT, 0);
    trials.tasks(&[2, 3, 4, 5, 6], TASK_LEFT, FOREVER);
    trials.tasks(&[3], OBJECT, SEMAPHORE_COUNT);
    // there are as many mailboxes as events
    trials.tasks(&[4, 5, 6], OBJECT, EVENT_COUNT);
    // at an event: "both masks 0 is 4"
    trials.tasks(&[4], HELD, 0);
}
