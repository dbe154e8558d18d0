// The words of each table's rows, and the rows that are worked on whole.
#![tactic(auto)]

pub mod readings;

ghost use Rattle.std.specs.Prelude.{◌≡◌, ◌≤◌, eqb};
ghost use Rattle.basics.specs.Find.{first_below};
ghost use Rattle.rules.specs.Rows.{field, with_field, with_row};
ghost use Rattle.rules.specs.Tables.{task_count, task_width, clock_count, clock_width, task, with_task, clock, with_clock, semaphore, with_semaphore, event};
ghost use Rattle.rules.specs.Tables.{with_event, mailbox, with_mailbox, swi, with_swi};

use basics::wide;
use rules::numbers::{
    CLOCK_FIRST, CLOCK_LEFT, CLOCK_ROWS_U8, CLOCK_SWI, CLOCK_WIDTH_U8, EVENT_ROWS_U8,
    EVENT_WIDTH_U8, HELD, MAILBOX_ROWS_U8, MAILBOX_WIDTH_U8, MASK, MODE, OBJECT, OUTCOME, PERIOD,
    SEMAPHORE_ROWS_U8, SEMAPHORE_WIDTH_U8, SWI_ROWS_U8, SWI_WIDTH_U8, TASK_LEFT, TASK_PRIORITY,
    TASK_ROWS_U8, TASK_WIDTH_U8, USED, VALUE,
};
use rules::{Clock, Clocks, Events, Mailboxes, Semaphores, Swis, Task, Tasks};

// ---- any table of n rows of w words
// The width and the number of rows stay two numbers: the definitions take them so (`field w n`), and each contract would open a struct of both again.

// Word f of row i; 0 where there is none.
#[tactic(auto, unfolding(rules::specs::Rows::field))]
pub fn word(t: &[u32], w: u8, n: u8, i: usize, f: usize) -> u32
    ensures { result ≡ field w n t.now i f }
{
    if i < wide(n) && f < wide(w) {
        return t.get(i * wide(w) + f).copied().unwrap_or(0);
    }
    0
}

// Word f of row i is x now, where there is one.
#[tactic(auto, unfolding(rules::specs::Rows::with_field))]
pub fn set_word(t: &mut [u32], w: u8, n: u8, i: usize, f: usize, x: u32)
    ensures { t.new ≡ with_field w n t.old i f x }
{
    if i < wide(n) && f < wide(w) {
        let k = i * wide(w) + f;
        if k < t.len() {
            t[k] = x;
        }
    }
}

// The lowest number of a row whose word f is 0; n where none is, and no Option: so `first_below` says, and the tables' definitions go by it.
pub fn first_zero(t: &[u32], w: u8, n: u8, f: usize) -> usize
    ensures first { result ≡ first_below n (λ i. eqb (field w n t.now i f) 0) }
    ensures within { result ≤ n }
{
    for i in 0..wide(n) {
        if word(t, w, n, i, f) == 0 {
            return i;
        }
    }
    wide(n)
}

// Row i, of n rows of w words, has these words from its first on, where there is such a row.
#[tactic(auto, unfolding(rules::specs::Rows::with_row))]
pub fn put_row(t: &mut [u32], w: u8, n: u8, i: usize, row: &[u32])
    ensures { t.new ≡ with_row w n t.old i row.now }
{
    if i < wide(n) {
        let at = i * wide(w);
        for (k, x) in row.iter().enumerate() {
            if k < t.len().saturating_sub(at) {
                t[at + k] = *x;
            }
        }
    }
}

// The functions of one table's words below stay, each a name for `word` or `set_word`: the tables are arrays of plain words, and mailboxes and clocks
// are one type, so that a trait could not tell them apart.

// ---- tasks

pub fn task_word(tasks: &Tasks, i: usize, f: usize) -> u32
    ensures { result ≡ field task_width task_count tasks.now i f }
{
    word(tasks, TASK_WIDTH_U8, TASK_ROWS_U8, i, f)
}

pub fn set_task_word(tasks: &mut Tasks, i: usize, f: usize, x: u32)
    ensures { tasks.new ≡ with_field task_width task_count tasks.old i f x }
{
    set_word(tasks, TASK_WIDTH_U8, TASK_ROWS_U8, i, f, x)
}

// Task i's row; all 0 where there is none.
#[tactic(auto, unfolding(rules::specs::Tables::task))]
pub fn task(tasks: &Tasks, i: usize) -> Task
    ensures { result ≡ task tasks.now i }
{
    Task {
        mode: task_word(tasks, i, MODE),
        priority: task_word(tasks, i, TASK_PRIORITY),
        object: task_word(tasks, i, OBJECT),
        left: task_word(tasks, i, TASK_LEFT),
        held: task_word(tasks, i, HELD),
        mask: task_word(tasks, i, MASK),
        outcome: task_word(tasks, i, OUTCOME),
        value: task_word(tasks, i, VALUE),
    }
}

#[tactic(auto, unfolding(rules::specs::Tables::with_task))]
pub fn set_task(tasks: &mut Tasks, i: usize, k: Task)
    ensures { tasks.new ≡ with_task tasks.old i k }
{
    put_row(
        tasks,
        TASK_WIDTH_U8,
        TASK_ROWS_U8,
        i,
        &[
            k.mode, k.priority, k.object, k.left, k.held, k.mask, k.outcome, k.value,
        ],
    )
}

// ---- semaphores

pub fn semaphore(semaphores: &Semaphores, i: usize, f: usize) -> u32
    ensures { result ≡ semaphore semaphores.now i f }
{
    word(semaphores, SEMAPHORE_WIDTH_U8, SEMAPHORE_ROWS_U8, i, f)
}

pub fn set_semaphore(semaphores: &mut Semaphores, i: usize, f: usize, x: u32)
    ensures { semaphores.new ≡ with_semaphore semaphores.old i f x }
{
    set_word(semaphores, SEMAPHORE_WIDTH_U8, SEMAPHORE_ROWS_U8, i, f, x)
}

// ---- events

pub fn event(events: &Events, i: usize, f: usize) -> u32
    ensures { result ≡ event events.now i f }
{
    word(events, EVENT_WIDTH_U8, EVENT_ROWS_U8, i, f)
}

pub fn set_event(events: &mut Events, i: usize, f: usize, x: u32)
    ensures { events.new ≡ with_event events.old i f x }
{
    set_word(events, EVENT_WIDTH_U8, EVENT_ROWS_U8, i, f, x)
}

// ---- mailboxes

pub fn mailbox(mailboxes: &Mailboxes, i: usize, f: usize) -> u32
    ensures { result ≡ mailbox mailboxes.now i f }
{
    word(mailboxes, MAILBOX_WIDTH_U8, MAILBOX_ROWS_U8, i, f)
}

pub fn set_mailbox(mailboxes: &mut Mailboxes, i: usize, f: usize, x: u32)
    ensures { mailboxes.new ≡ with_mailbox mailboxes.old i f x }
{
    set_word(mailboxes, MAILBOX_WIDTH_U8, MAILBOX_ROWS_U8, i, f, x)
}

// ---- Swis

pub fn swi(swis: &Swis, i: usize, f: usize) -> u32
    ensures { result ≡ swi swis.now i f }
{
    word(swis, SWI_WIDTH_U8, SWI_ROWS_U8, i, f)
}

pub fn set_swi(swis: &mut Swis, i: usize, f: usize, x: u32)
    ensures { swis.new ≡ with_swi swis.old i f x }
{
    set_word(swis, SWI_WIDTH_U8, SWI_ROWS_U8, i, f, x)
}

// ---- clocks

pub fn clock_word(clocks: &Clocks, i: usize, f: usize) -> u32
    ensures { result ≡ field clock_width clock_count clocks.now i f }
{
    word(clocks, CLOCK_WIDTH_U8, CLOCK_ROWS_U8, i, f)
}

// Clock i's row; all 0 where there is none.
#[tactic(auto, unfolding(rules::specs::Tables::clock))]
pub fn clock(clocks: &Clocks, i: usize) -> Clock
    ensures { result ≡ clock clocks.now i }
{
    Clock {
        used: clock_word(clocks, i, USED),
        swi: clock_word(clocks, i, CLOCK_SWI),
        first: clock_word(clocks, i, CLOCK_FIRST),
        period: clock_word(clocks, i, PERIOD),
        left: clock_word(clocks, i, CLOCK_LEFT),
    }
}

#[tactic(auto, unfolding(rules::specs::Tables::with_clock))]
pub fn set_clock(clocks: &mut Clocks, i: usize, k: Clock)
    ensures { clocks.new ≡ with_clock clocks.old i k }
{
    put_row(
        clocks,
        CLOCK_WIDTH_U8,
        CLOCK_ROWS_U8,
        i,
        &[k.used, k.swi, k.first, k.period, k.left],
    )
}
