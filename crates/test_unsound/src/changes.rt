// Changes of tables: a word of a row, a whole row, and who stands in a line.
use rows::{set_event, set_mailbox, set_semaphore, set_swi, set_task_word};
use rules::numbers::{CLOCK_WIDTH, HEAP_UNITS, LINE_WIDTH, STATE_WIDTH};
use rules::{Lines, Tables};

// A row of a table: of a task, an object or a line by its number, the state, or all units of the heap. A line's first word is how many stand there.
// Stays an enum, not a closure that picks the table: a row is said in a word, and its table's width and numbers stand here once.
#[derive(Clone, Copy)]
pub(crate) enum Row {
    Task(usize),
    Semaphore(usize),
    Event(usize),
    Mailbox(usize),
    Swi(usize),
    Clock(usize),
    Line(usize),
    State,
    Units,
}

// For the tables of which `rows` stores no single word: x at word f of row i, in rows of so many words; no change where there is no such row or word.
fn set<T: Copy>(table: &mut [T], width: usize, i: usize, f: usize, x: T) {
    if f < width {
        if let Some(word) = table.get_mut(i.saturating_mul(width).saturating_add(f)) {
            *word = x;
        }
    }
}

// The tables with x at a word of a row.
pub(crate) fn with_word(t: Tables, row: Row, f: usize, x: u32) -> Tables {
    let mut u = t;
    let byte = (x % 256) as u8;
    match row {
        Row::Task(i) => set_task_word(&mut u.tasks, i, f, x),
        Row::Semaphore(i) => set_semaphore(&mut u.semaphores, i, f, x),
        Row::Event(i) => set_event(&mut u.events, i, f, x),
        Row::Mailbox(i) => set_mailbox(&mut u.mailboxes, i, f, x),
        Row::Swi(i) => set_swi(&mut u.swis, i, f, x),
        Row::Clock(i) => set(&mut u.clocks, CLOCK_WIDTH, i, f, x),
        Row::Line(j) => set(&mut u.lines, LINE_WIDTH, j, f, byte),
        Row::State => set(&mut u.state, STATE_WIDTH, 0, f, x),
        Row::Units => set(&mut u.heap, HEAP_UNITS, 0, f, byte),
    }
    u
}

// The tables with these words in a row, from its first one on.
pub(crate) fn with_row(t: Tables, row: Row, words: &[u32]) -> Tables {
    let mut u = t;
    for (f, x) in words.iter().enumerate() {
        u = with_word(u, row, f, *x);
    }
    u
}

// How many stand in line j.
fn standing(lines: &Lines, j: usize) -> u8 {
    lines
        .get(j.saturating_mul(LINE_WIDTH))
        .copied()
        .unwrap_or(0)
}

// The tables with one more at the end of line j.
pub(crate) fn joined(t: Tables, j: usize, who: u32) -> Tables {
    let row = Row::Line(j);
    let n = standing(&t.lines, j);
    let longer = with_word(t, row, 0, u32::from(n) + 1);
    with_word(longer, row, usize::from(n) + 1, who)
}

// The tables with nobody in line j.
pub(crate) fn emptied(t: Tables, j: usize) -> Tables {
    with_row(t, Row::Line(j), &[0; LINE_WIDTH])
}
