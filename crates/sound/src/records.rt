// The rules on one record at a time: the state, the heap's entries, the clocks and the tasks.
ghost use Rattle.std.specs.Prelude.{◌≡◌};
ghost use Rattle.basics.specs.Rule.{holds, ◌is◌, ◌isnt◌, ◌under◌, ◌and◌, ◌gives◌};
ghost use Rattle.rules.specs.Tables.{task};
ghost use Rattle.rules.specs.Heap.{free, later_in};
ghost use Rattle.rules.specs.Sound.{state_rule, heap_rule, clock_rule, clocks_rule, no_wait, idle_rule, wait_rule, other_rule, task_rule, tasks_rule};

use rules::numbers::{
    AT_EVENT, AT_SEMAPHORE, CLOCK_ROWS, CURRENT, DEPTH, DEPTH_END, ENTRY_COUNT, EVENT_COUNT,
    FOREVER, FREE, INACTIVE, LATER_IN, LEVELS, MAILBOX_COUNT, MINUS_ONE, NOT_IN_USE, NOT_MET,
    NOW_WAITING, READING, READY, SEMAPHORE_COUNT, SLEEPING, TASK_COUNT, TASK_ROWS, TERMINATED,
    USED, WRITING,
};
use rules::{Clock, Clocks, Heap, State, Swis, Task, Tasks};

// ---- the state

// Depth 0 to 8, each switch on or off, the current task is a ready one, and there are 16 levels or 32.
pub fn state_sound(tasks: &Tasks, state: &State) -> bool
    ensures { result ≡ holds (state_rule tasks.now state.now) }
{
    let current = state[CURRENT];
    let k = rows::task(tasks, basics::index(current));
    (state[DEPTH] < DEPTH_END)
        & (state[rules::numbers::SWIS] < 2)
        & (state[rules::numbers::TASKS] < 2)
        & (current < TASK_COUNT)
        & (k.mode == READY)
        & ((state[LEVELS] == rules::numbers::FEW_LEVELS)
            | (state[LEVELS] == rules::numbers::MOST_LEVELS))
}

// ---- the heap

// An entry is free, first of a block or later in one; a later one does not stand after a free one.
fn unit_sound(before: u8, entry: u8) -> bool
    ensures { result ≡ holds ((entry under 3) and (entry is later_in gives before isnt free)) }
{
    (entry < ENTRY_COUNT) & ((entry != LATER_IN) | (before != FREE))
}

// The same of each entry, the first as if it stood after a free one. Stays a loop of its own: its rule is on two neighbours.
pub fn heap_sound(heap: &Heap) -> bool
    ensures { result ≡ holds (heap_rule heap.now) }
{
    let mut ok = true;
    let mut before = FREE;
    for entry in heap {
        ok = ok & unit_sound(before, *entry);
        before = *entry;
    }
    ok
}

// ---- clocks

// A clock in use names a Swi in use and has first ticks from 1; one not in use is all 0.
#[tactic(auto, unfolding(rules::specs::Sound::clock_rule))]
fn clock_sound(swis: &Swis, k: Clock) -> bool
    ensures { result ≡ holds (clock_rule swis.now k) }
{
    let named = rows::swi(swis, k.swi as usize, USED);
    (k.used < 2)
        & ((k.used != 0) | ((k.swi == 0) & (k.first == 0) & (k.period == 0) & (k.left == 0)))
        & ((k.used != 1) | ((named == 1) & (k.first != 0)))
}

// The same of each clock.
pub fn clocks_sound(clocks: &Clocks, swis: &Swis) -> bool
    ensures { result ≡ holds (clocks_rule clocks.now swis.now) }
{
    super::each(CLOCK_ROWS, |n| clock_sound(swis, rows::clock(clocks, n)))
}

// ---- tasks

// Nothing of a wait stands in the row.
fn no_wait(k: Task) -> bool
    ensures { result ≡ holds (no_wait k) }
{
    (k.object == 0) & (k.left == 0) & (k.held == 0) & (k.mask == 0)
}

// Task 0: ready, priority 0, and all else 0.
fn idle_sound(k: Task) -> bool
    ensures { result ≡ holds (idle_rule k) }
{
    (k.mode == READY) & (k.priority == 0) & no_wait(k) & (k.outcome == 0) & (k.value == 0)
}

// The last result: outcome 0 or 1, and with outcome 1 value 0.
fn result_sound(k: Task) -> bool
    ensures { result ≡ holds ((k.outcome under 2) and (k.outcome is 1 gives k.value is 0)) }
{
    (k.outcome < NOW_WAITING) & ((k.outcome != NOT_MET) | (k.value == 0))
}

// A priority from 1 to n - 1.
fn level_sound(k: Task, n: u32) -> bool
    ensures { result ≡ holds ((0 under k.priority) and (k.priority under n)) }
{
    (0 < k.priority) & (k.priority < n)
}

// A wait at one of n objects, limited or without end.
fn wait_sound(k: Task, n: u32) -> bool
    ensures { result ≡ holds (wait_rule k n) }
{
    (k.object < n) & (k.left < FOREVER)
}

// Any other task than task 0, by its mode: not in use, ready, sleeping, at a semaphore, at an
// event, reading, writing, terminated, inactive.
// Stays a match on a number: `other_rule` tells of any word that may stand there.
#[tactic(auto, unfolding(rules::specs::Sound::other_rule))]
fn other_sound(k: Task, n: u32) -> bool
    ensures { result ≡ holds (other_rule n k) }
{
    let result = result_sound(k);
    let level = level_sound(k, n);
    let clear = no_wait(k);
    match k.mode {
        NOT_IN_USE => result & (k.priority == 0) & clear & (k.outcome == 0) & (k.value == 0),
        READY => result & clear & level,
        SLEEPING => {
            result
                & (k.object == 0)
                & (k.left != 0)
                & (k.left < FOREVER)
                & (k.held == 0)
                & (k.mask == 0)
                & level
        }
        AT_SEMAPHORE => result
            & wait_sound(k, SEMAPHORE_COUNT)
            & (k.held == 0)
            & (k.mask == 0)
            & level,
        AT_EVENT => result & wait_sound(k, EVENT_COUNT) & ((k.held != 0) | (k.mask != 0)) & level,
        READING => result & wait_sound(k, MAILBOX_COUNT) & (k.held == 0) & (k.mask == 0) & level,
        WRITING => result & wait_sound(k, MAILBOX_COUNT) & (k.mask == 0) & level,
        TERMINATED => result & clear & level,
        INACTIVE => result & (k.priority == MINUS_ONE) & clear,
        _ => false,
    }
}

// Task i's row is as its number and mode say.
fn task_sound(tasks: &Tasks, i: usize, n: u32) -> bool
    ensures { result ≡ holds (task_rule n i (task tasks.now i)) }
{
    let k = rows::task(tasks, i);
    if i == 0 {
        return idle_sound(k);
    }
    other_sound(k, n)
}

// The same of each task.
pub fn tasks_sound(tasks: &Tasks, n: u32) -> bool
    ensures { result ≡ holds (tasks_rule n tasks.now) }
{
    super::each(TASK_ROWS, |i| task_sound(tasks, i, n))
}
