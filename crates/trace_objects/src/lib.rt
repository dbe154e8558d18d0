// The objects that changed: rows alone, rows with a line, mailboxes, clocks, and the heap.
#![tactic(auto)]

ghost use Rattle.std.specs.Prelude.{◌≡◌, not, ◌&&◌, ◌∷◌, ◌++◌, ◌+◌, ◌≤◌};
ghost use Rattle.rules.specs.Tables.{messages};
ghost use Rattle.rules.specs.Lines.{line};
ghost use Rattle.trace_changes.specs.Numbers.{PutNumbers, told, same_list};
ghost use Rattle.trace_changes.specs.Changes.{row, same_row, waiting, changed_rows, changed_lined, mailbox_numbers, same_mailbox, changed_mailboxes, runs_out, ran_out};
ghost use Rattle.trace_changes.specs.Changes.{changed_clocks, same_heap, units_with, changed_heap};

use rules::numbers::{
    CAPACITY, CLOCK_ROWS, CLOCK_ROWS_U8, CLOCK_WIDTH_U8, FIRST_OF, LATER_IN, MAILBOX_LINES,
    MAILBOX_ROWS, MAILBOX_ROWS_U8, MAILBOX_WIDTH_U8, OLDEST,
};
use rules::{Clocks, Heap, Lines, Mailboxes};
use text::Text;
use trace_changes::Made;
use trace_put::{Table, put, put_each, put_row, put_waiting, runs_out, same_line, same_row};

// ---- rows

// A row's number and its words.
fn put_object(out: &mut Text, at: usize, t: Table, i: usize) -> usize
    ensures { PutNumbers out.old at (i ∷ row t.entry.width t.entry.rows t.entry.after.now i) out.new result }
{
    let p = put(out, at, i as u64);
    put_row(out, p, t, i)
}

// The same, if the row changed.
fn put_if_changed(out: &mut Text, at: usize, t: Table, i: usize) -> usize
    ensures { PutNumbers out.old at
        (told (not (same_row t.entry.width t.entry.rows t.entry.before.now t.entry.after.now i)) (i ∷ row t.entry.width t.entry.rows t.entry.after.now i))
        out.new result }
{
    if same_row(t, i) {
        return at;
    }
    put_object(out, at, t, i)
}

// Of a table's rows, those that changed.
#[tactic(auto, unfolding(trace_changes::specs::Changes::changed_rows))]
pub fn put_rows(out: &mut Text, at: usize, t: Table) -> usize
    ensures { PutNumbers out.old at (changed_rows t.entry.width t.entry.rows t.entry.before.now t.entry.after.now) out.new result }
{
    put_each(
        out,
        at,
        t.rows as usize,
        |out, p, i| put_if_changed(out, p, t, i),
    )
}

// ---- rows with a line

// Row i with line j, if one of them changed.
fn put_lined_if_changed(
    out: &mut Text,
    at: usize,
    t: Table,
    before: &Lines,
    lines: &Lines,
    i: usize,
    j: usize,
) -> usize
    ensures { PutNumbers out.old at
        (told (not (same_row t.entry.width t.entry.rows t.entry.before.now t.entry.after.now i && same_list (line before.now j) (line lines.now j)))
        (i ∷ (row t.entry.width t.entry.rows t.entry.after.now i ++ waiting lines.now j))) out.new result }
{
    if same_row(t, i) & same_line(before, lines, j) {
        return at;
    }
    let p = put_object(out, at, t, i);
    put_waiting(out, p, lines, j)
}

// Of a table's rows, with lines from `from` on, those of which the row or the line changed.
#[tactic(auto, unfolding(trace_changes::specs::Changes::changed_lined))]
pub fn put_lined(
    out: &mut Text,
    at: usize,
    t: Table,
    before: &Lines,
    lines: &Lines,
    from: u8,
) -> usize
    ensures { PutNumbers out.old at
        (changed_lined t.entry.width t.entry.rows from t.entry.before.now before.now t.entry.after.now lines.now) out.new result }
{
    put_each(out, at, t.rows as usize, |out, p, i| {
        put_lined_if_changed(out, p, t, before, lines, i, from as usize + i)
    })
}

// ---- mailboxes

// The messages of mailbox i, the oldest first.
fn put_messages(out: &mut Text, at: usize, mailboxes: &Mailboxes, i: usize) -> usize
    ensures { PutNumbers out.old at (messages mailboxes.now i) out.new result }
{
    let n = mailboxes::messages::count(mailboxes, i);
    put_each(out, at, n, |out, p, k| {
        put(out, p, rows::mailbox(mailboxes, i, OLDEST + k) as u64)
    })
}

fn put_mailbox(out: &mut Text, at: usize, mailboxes: &Mailboxes, lines: &Lines, i: u8) -> usize
    ensures { PutNumbers out.old at (mailbox_numbers mailboxes.now lines.now i) out.new result }
{
    let n = i as usize;
    let capacity = put(out, at, i as u64);
    let count = put(out, capacity, rows::mailbox(mailboxes, n, CAPACITY) as u64);
    let first = put(out, count, mailboxes::messages::count(mailboxes, n) as u64);
    let waiters = put_messages(out, first, mailboxes, n);
    put_waiting(out, waiters, lines, MAILBOX_LINES + n)
}

#[tactic(auto, unfolding(trace_changes::specs::Changes::same_mailbox))]
fn same_mailbox(
    before: &Mailboxes,
    lines_before: &Lines,
    mailboxes: &Mailboxes,
    lines: &Lines,
    i: u8,
) -> bool
    ensures { result ≡ same_mailbox before.now lines_before.now mailboxes.now lines.now i }
{
    let table = Table {
        before,
        after: mailboxes,
        width: MAILBOX_WIDTH_U8,
        rows: MAILBOX_ROWS_U8,
    };
    same_row(table, i as usize) & same_line(lines_before, lines, MAILBOX_LINES + i as usize)
}

// Mailbox i, if it changed.
fn put_mailbox_if_changed(
    out: &mut Text,
    at: usize,
    before: &Mailboxes,
    lines_before: &Lines,
    mailboxes: &Mailboxes,
    lines: &Lines,
    i: u8,
) -> usize
    ensures { PutNumbers out.old at
        (told (not (same_mailbox before.now lines_before.now mailboxes.now lines.now i)) (mailbox_numbers mailboxes.now lines.now i)) out.new result }
{
    if same_mailbox(before, lines_before, mailboxes, lines, i) {
        return at;
    }
    put_mailbox(out, at, mailboxes, lines, i)
}

#[tactic(auto, unfolding(trace_changes::specs::Changes::changed_mailboxes))]
pub fn put_mailboxes(
    out: &mut Text,
    at: usize,
    before: &Mailboxes,
    lines_before: &Lines,
    mailboxes: &Mailboxes,
    lines: &Lines,
) -> usize
    ensures { PutNumbers out.old at (changed_mailboxes before.now lines_before.now mailboxes.now lines.now) out.new result }
{
    put_each(out, at, MAILBOX_ROWS, |out, p, i| {
        put_mailbox_if_changed(out, p, before, lines_before, mailboxes, lines, i as u8)
    })
}

// ---- clocks

// Clock i as it is now, if it ran out.
fn put_if_ran_out(out: &mut Text, at: usize, before: &Clocks, t: Table, i: usize) -> usize
    ensures { PutNumbers out.old at (told (runs_out before.now i) (i ∷ row t.entry.width t.entry.rows t.entry.after.now i)) out.new result }
{
    if runs_out(rows::clock(before, i)) {
        return put_object(out, at, t, i);
    }
    at
}

// At a tick the clocks that ran out, else those whose row changed.
#[tactic(auto, unfolding(trace_changes::specs::Changes::changed_clocks, trace_changes::specs::Changes::ran_out))]
pub fn put_clocks(out: &mut Text, at: usize, made: Made, before: &Clocks, clocks: &Clocks) -> usize
    ensures { PutNumbers out.old at (changed_clocks made before.now clocks.now) out.new result }
{
    let table = Table {
        before,
        after: clocks,
        width: CLOCK_WIDTH_U8,
        rows: CLOCK_ROWS_U8,
    };
    let answer = made.answer;
    let asked = made.asked;
    if (answer.code == 0) & (asked.number == 0x76) {
        return put_each(
            out,
            at,
            CLOCK_ROWS,
            |out, p, i| put_if_ran_out(out, p, before, table, i),
        );
    }
    put_rows(out, at, table)
}

// ---- the heap

fn same_heap(before: &Heap, heap: &Heap) -> bool
    ensures { result ≡ same_heap before.now heap.now }
{
    before == heap
}

// How many units have this entry.
fn count_units(heap: &Heap, e: u8) -> usize
    ensures { (result ≡ units_with e heap.now) × (result ≤ 256) }
{
    heap.iter().filter(|x| **x == e).count()
}

pub fn put_heap(out: &mut Text, at: usize, before: &Heap, heap: &Heap) -> usize
    ensures { PutNumbers out.old at (changed_heap before.now heap.now) out.new result }
{
    if same_heap(before, heap) {
        return at;
    }
    let blocks = count_units(heap, FIRST_OF);
    let taken = blocks + count_units(heap, LATER_IN);
    let p = put(out, at, blocks as u64);
    put(out, p, taken as u64)
}
