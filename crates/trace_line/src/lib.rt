// The line of a record in the trace: its parts one after the other, in a lent text.
#![tactic(auto)]

ghost use Rattle.std.specs.Prelude.{[], ◌∷◌, ◌++◌};
ghost use Rattle.rules.specs.Tables.{word_end};
ghost use Rattle.rules.specs.Text.{space, thread_text};
ghost use Rattle.text.specs.Put.{Put};
ghost use Rattle.trace_changes.specs.Numbers.{PutNumbers};
ghost use Rattle.trace_changes.specs.Changes.{changed_semaphores, changed_events, changed_mailboxes};
ghost use Rattle.trace_changes.specs.Line.{bar, barred, call_text, trace_line, Under, Typical, Lined};

use rules::numbers::{
    ACTIVE_LINE, EVENT_LINES_U8, EVENT_ROWS_U8, EVENT_WIDTH_U8, SEMAPHORE_LINES_U8,
    SEMAPHORE_ROWS_U8, SEMAPHORE_WIDTH_U8, SWI_ROWS_U8, SWI_WIDTH_U8, TICK,
};
use rules::{Lines, State, Tables, Thread};
use text::Text;
use trace_changes::Made;
use trace_objects::{put_clocks, put_heap, put_lined, put_mailboxes, put_rows};
use trace_put::{Table, put, put_line, put_words};
use trace_threads::{put_posted, put_posts, put_started, put_state, put_tasks};

// No line has more bytes, whatever the tables are.
pub const LINE_MOST: usize = 13292;

// What stands between two parts.
fn put_bar(out: &mut Text, at: usize) -> usize
    ensures { Put out.old at bar out.new result }
{
    let p = text::put_byte(out, at, b';');
    text::put_byte(out, p, b' ')
}

fn put_thread(out: &mut Text, at: usize, thread: Thread) -> usize
    ensures { Put out.old at (thread_text thread ++ space) out.new result }
{
    let p = text::put_thread(out, at, thread);
    text::put_byte(out, p, b' ')
}

// The call, by the tables before it.
fn put_call(out: &mut Text, at: usize, made: Made, lines: &Lines, state: &State) -> usize
    ensures { Put out.old at (call_text made lines.now state.now) out.new result }
{
    let tick = put(out, at, made.n);
    let caller = put(out, tick, state[TICK] as u64);
    let asked = put_thread(out, caller, dispatch::running(lines, state));
    let q = made.asked;
    let r = made.answer;
    let words = [q.number, q.a, q.b, q.c, q.d, r.code, r.outcome, r.value];
    let now = put_words(out, asked, &words);
    put_thread(out, now, made.thread)
}

// The objects at which tasks wait.
fn put_waited(out: &mut Text, at: usize, before: &Tables, after: &Tables) -> usize
    ensures { Put out.old at
        (barred
        (changed_semaphores before.now.semaphores before.now.lines after.now.semaphores after.now.lines
        ∷ changed_events before.now.events before.now.lines after.now.events after.now.lines
        ∷ changed_mailboxes before.now.mailboxes before.now.lines after.now.mailboxes after.now.lines
        ∷ []))
        out.new result }
{
    let semaphores = Table {
        before: &before.semaphores,
        after: &after.semaphores,
        width: SEMAPHORE_WIDTH_U8,
        rows: SEMAPHORE_ROWS_U8,
    };
    let events = Table {
        before: &before.events,
        after: &after.events,
        width: EVENT_WIDTH_U8,
        rows: EVENT_ROWS_U8,
    };
    let (was, lines) = (&before.lines, &after.lines);
    let s = put_bar(out, at);
    let after_s = put_lined(out, s, semaphores, was, lines, SEMAPHORE_LINES_U8);
    let e = put_bar(out, after_s);
    let after_e = put_lined(out, e, events, was, lines, EVENT_LINES_U8);
    let m = put_bar(out, after_e);
    put_mailboxes(out, m, &before.mailboxes, was, &after.mailboxes, lines)
}

// ---- how long a line can be

// A table's numbers are words: its type tells a proof so where one is read, and nothing is left of this in a compiled program.
fn are_words(t: &[u32])
    ensures { Under word_end t.now }
{
    if 0 < t.len() {
        let _first = t[0];
    }
}

// The same of bytes.
fn are_bytes(t: &[u8])
    ensures { Under 256 t.now }
{
    if 0 < t.len() {
        let _first = t[0];
    }
}

// The tables from which a line is told.
fn are_typical(t: &Tables)
    ensures { Typical t.now.tasks t.now.lines t.now.semaphores t.now.events t.now.mailboxes t.now.swis t.now.clocks }
{
    are_words(&t.tasks);
    are_bytes(&t.lines);
    are_words(&t.semaphores);
    are_words(&t.events);
    are_words(&t.mailboxes);
    are_words(&t.swis);
    are_words(&t.clocks);
}

// The line of a record, by the tables before its call and after it.
pub fn put_trace(out: &mut Text, at: usize, made: Made, before: &Tables, after: &Tables) -> usize
    ensures { Lined out.old at (trace_line made before.now after.now) out.new result }
{
    are_typical(after);
    let told = put_call(out, at, made, &before.lines, &before.state);
    // the state and the threads
    let s = put_bar(out, told);
    let after_s = put_state(out, s, &after.state);
    let t = put_bar(out, after_s);
    let after_t = put_tasks(out, t, &before.tasks, &after.tasks);
    let p = put_bar(out, after_t);
    let after_p = put_posts(out, p, made, &before.clocks, &before.swis);
    let d = put_bar(out, after_p);
    let after_d = put_started(out, d, made, &before.lines, &after.lines);
    let w = put_bar(out, after_d);
    let after_w = put_posted(out, w, &after.lines);
    let a = put_bar(out, after_w);
    let threads = put_line(out, a, &after.lines, ACTIVE_LINE);
    let waited = put_waited(out, threads, before, after);
    // Swis, clocks and the heap
    let swis = Table {
        before: &before.swis,
        after: &after.swis,
        width: SWI_WIDTH_U8,
        rows: SWI_ROWS_U8,
    };
    let r = put_bar(out, waited);
    let after_r = put_rows(out, r, swis);
    let c = put_bar(out, after_r);
    let after_c = put_clocks(out, c, made, &before.clocks, &after.clocks);
    let h = put_bar(out, after_c);
    let others = put_heap(out, h, &before.heap, &after.heap);
    text::put_byte(out, others, b'\n')
}
