// Three sets of sound tables: busy ones, in which something of each kind is going on, held ones, in which tasks are off, and wide ones, with 32
// levels.
use super::changes::{Row, emptied, with_row};
use rules::Tables;
use rules::numbers::{
    ACTIVE_LINE, AT_EVENT, AT_SEMAPHORE, BY_PRIORITY, CLOCK_WORDS, EVENT_LINES, EVENT_WORDS,
    FEW_LEVELS, FIRST_OF, HEAP_UNITS, INACTIVE, LATER_IN, LINE_BYTES, MAILBOX_LINES, MAILBOX_WORDS,
    MINUS_ONE, MOST_LEVELS, NOT_MET, POSTED_LINES, READING, READY, READY_LINES, SEMAPHORE_LINES,
    SEMAPHORE_WORDS, SLEEPING, STATE_WIDTH, SWI_WORDS, TASK_WORDS, TERMINATED, WRITING,
};

// Nothing is in use.
fn zeros() -> Tables {
    Tables {
        tasks: [0; TASK_WORDS],
        lines: [0; LINE_BYTES],
        semaphores: [0; SEMAPHORE_WORDS],
        events: [0; EVENT_WORDS],
        mailboxes: [0; MAILBOX_WORDS],
        swis: [0; SWI_WORDS],
        clocks: [0; CLOCK_WORDS],
        heap: [0; HEAP_UNITS],
        state: [0; STATE_WIDTH],
    }
}

// A task in each mode; task 9 is ready after a wait that was done.
fn with_tasks(t: Tables) -> Tables {
    let t = with_row(t, Row::Task(0), &[READY, 0]);
    let t = with_row(t, Row::Task(1), &[READY, 5]);
    let t = with_row(t, Row::Task(2), &[SLEEPING, 4, 0, 3]);
    let t = with_row(t, Row::Task(3), &[AT_SEMAPHORE, 4]);
    let t = with_row(t, Row::Task(4), &[AT_EVENT, 4, 0, 2, 3]);
    let t = with_row(t, Row::Task(5), &[READING, 4]);
    let t = with_row(t, Row::Task(6), &[WRITING, 4, 1, 0, 9]);
    let t = with_row(t, Row::Task(7), &[TERMINATED, 4, 0, 0, 0, 0, NOT_MET]);
    let t = with_row(t, Row::Task(8), &[INACTIVE, MINUS_ONE]);
    with_row(t, Row::Task(9), &[READY, 3, 0, 0, 0, 0, 0, 12])
}

fn with_lines(t: Tables) -> Tables {
    let t = with_row(t, Row::Line(READY_LINES), &[1, 0]);
    let t = with_row(t, Row::Line(READY_LINES + 5), &[1, 1]);
    let t = with_row(t, Row::Line(READY_LINES + 3), &[1, 9]);
    let t = with_row(t, Row::Line(SEMAPHORE_LINES), &[1, 3]);
    let t = with_row(t, Row::Line(EVENT_LINES), &[1, 4]);
    let t = with_row(t, Row::Line(MAILBOX_LINES), &[1, 5]);
    let t = with_row(t, Row::Line(MAILBOX_LINES + 1), &[1, 6]);
    let t = with_row(t, Row::Line(ACTIVE_LINE), &[2, 0, 1]);
    with_row(t, Row::Line(POSTED_LINES + 6), &[1, 2])
}

// Task 3 waits at semaphore 0; semaphore 1 is binary, semaphore 2 counting by priority. Task 4 waits at event 0 for bits 3.
fn with_semaphores_and_events(t: Tables) -> Tables {
    let t = with_row(t, Row::Semaphore(0), &[1, 0]);
    let t = with_row(t, Row::Semaphore(1), &[1, 1, 1]);
    let t = with_row(t, Row::Semaphore(2), &[1, BY_PRIORITY, 3]);
    let t = with_row(t, Row::Event(0), &[1, 1]);
    with_row(t, Row::Event(1), &[1, 5])
}

// Task 5 reads from mailbox 0, task 6 writes to mailbox 1. A block of three units, a free one, a block of one.
fn with_mailboxes_and_units(t: Tables) -> Tables {
    let t = with_row(t, Row::Mailbox(0), &[2, 0]);
    let t = with_row(t, Row::Mailbox(1), &[1, 1, 7]);
    let t = with_row(t, Row::Mailbox(2), &[3, 1, 4]);
    let first = u32::from(FIRST_OF);
    let later = u32::from(LATER_IN);
    with_row(t, Row::Units, &[first, later, later, 0, first])
}

// Swis 0 and 1 are active, 2 is posted. Clock 0 runs, clock 1 is stopped.
fn with_swis_and_clocks(t: Tables) -> Tables {
    let t = with_row(t, Row::Swi(0), &[1, 3, 5, 5, 0, 2]);
    let t = with_row(t, Row::Swi(1), &[1, 6, 0, 1, 0, 4]);
    let t = with_row(t, Row::Swi(2), &[1, 6, 0, 0, 1]);
    let t = with_row(t, Row::Swi(3), &[1, 2]);
    let t = with_row(t, Row::Clock(0), &[1, 3, 2, 0, 1]);
    with_row(t, Row::Clock(1), &[1, 3, 4, 1, 0])
}

pub(crate) fn busy() -> Tables {
    let t = with_lines(with_tasks(zeros()));
    let t = with_mailboxes_and_units(with_semaphores_and_events(t));
    with_row(
        with_swis_and_clocks(t),
        Row::State,
        &[0, 1, 1, 7, 1, FEW_LEVELS],
    )
}

// Task 0 goes on, although task 1 is ready at 5.
pub(crate) fn held() -> Tables {
    let t = with_row(zeros(), Row::Task(0), &[READY, 0]);
    let t = with_row(t, Row::Task(1), &[READY, 5]);
    let t = with_row(t, Row::Line(READY_LINES), &[1, 0]);
    let t = with_row(t, Row::Line(READY_LINES + 5), &[1, 1]);
    with_row(t, Row::State, &[0, 1, 0, 0, 0, FEW_LEVELS])
}

// The busy tables with 32 levels: task 1 is ready at 31, and task 2 asleep at 16.
pub(crate) fn wide() -> Tables {
    let t = with_row(busy(), Row::Task(1), &[READY, 31]);
    let t = with_row(t, Row::Task(2), &[SLEEPING, 16]);
    let t = with_row(
        emptied(t, READY_LINES + 5),
        Row::Line(READY_LINES + 31),
        &[1, 1],
    );
    with_row(t, Row::State, &[0, 1, 1, 7, 1, MOST_LEVELS])
}
