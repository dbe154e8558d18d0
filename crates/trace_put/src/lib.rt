// What the parts of a line of the trace share: numbers in a lent text, a row's words, those who stand in a line, whether rows and lines are the same,
// and whether a clock runs out.
#![tactic(auto)]

ghost use Rattle.std.specs.Prelude.{ℕ, List, ◌<◌, ◌≡◌, ◌∷◌, [], eqb, get_or};
ghost use Rattle.basics.specs.Find.{all_below};
ghost use Rattle.rules.specs.Lines.{line};
ghost use Rattle.rules.specs.Tick.{aged};
ghost use Rattle.trace_changes.specs.Numbers.{PutNumbers, TellsBelow, each_below, same_list};
ghost use Rattle.trace_changes.specs.Changes.{row, same_row, waiting};

use rules::{Clock, Lines};
use text::Text;

// A table before a call and after it: so many words to a row, and so many rows.
#[derive(Clone, Copy)]
pub struct Table<'a> {
    pub before: &'a [u32],
    pub after: &'a [u32],
    pub width: u8,
    pub rows: u8,
}

// One number.
pub fn put(out: &mut Text, at: usize, n: u64) -> usize
    ensures { PutNumbers out.old at (n ∷ []) out.new result }
{
    text::put_column(out, at, n)
}

// Some words, one after the other.
pub fn put_words(out: &mut Text, at: usize, words: &[u32]) -> usize
    ensures { PutNumbers out.old at words.now out.new result }
{
    let mut p = at;
    for x in words {
        p = put(out, p, *x as u64);
    }
    p
}

// What a step tells of each number below n, one after the other.
pub fn put_each<F: Fn(&mut Text, usize, usize) -> usize>(
    out: &mut Text,
    at: usize,
    n: usize,
    step: F,
) -> usize
    requires { (m : _) (p i : ℕ) → i < n → F.pre step m p i }
    ensures { (tell : ℕ → List ℕ) → TellsBelow n (F.post step) tell → PutNumbers out.old at (each_below n tell) out.new result }
{
    let mut p = at;
    for i in 0..n {
        p = step(out, p, i);
    }
    p
}

// A row's words after the call.
#[tactic(auto, unfolding(trace_changes::specs::Changes::row))]
pub fn put_row(out: &mut Text, at: usize, t: Table, i: usize) -> usize
    ensures { PutNumbers out.old at (row t.entry.width t.entry.rows t.entry.after.now i) out.new result }
{
    put_each(out, at, t.width as usize, |out, p, f| {
        put(out, p, rows::word(t.after, t.width, t.rows, i, f) as u64)
    })
}

// Whether a row's words are the same before the call and after it.
pub fn same_row(t: Table, i: usize) -> bool
    ensures { result ≡ same_row t.entry.width t.entry.rows t.entry.before.now t.entry.after.now i }
{
    (0..t.width as usize).all(|f| {
        let before = rows::word(t.before, t.width, t.rows, i, f);
        before == rows::word(t.after, t.width, t.rows, i, f)
    })
}

// Those who stand in line j.
pub fn put_line(out: &mut Text, at: usize, lines: &Lines, j: usize) -> usize
    ensures { PutNumbers out.old at (line lines.now j) out.new result }
{
    put_each(out, at, lines::len(lines, j), |out, p, k| {
        put(out, p, lines::member(lines, j, k) as u64)
    })
}

// How many stand in line j, and who.
pub fn put_waiting(out: &mut Text, at: usize, lines: &Lines, j: usize) -> usize
    ensures { PutNumbers out.old at (waiting lines.now j) out.new result }
{
    let p = put(out, at, lines::len(lines, j) as u64);
    put_line(out, p, lines, j)
}

// Whether the first n of line j are the same in both tables. Stays a test of the places in use, no equality of rows.
fn same_front(lines: &Lines, after: &Lines, j: usize, n: usize) -> bool
    ensures { result ≡ all_below n (λ k. eqb (get_or (line lines.now j) k 0) (get_or (line after.now j) k 0)) }
{
    (0..n).all(|k| lines::member(lines, j, k) == lines::member(after, j, k))
}

// Whether the same stand in line j of both tables.
#[tactic(auto, unfolding(trace_changes::specs::Numbers::same_list))]
pub fn same_line(lines: &Lines, after: &Lines, j: usize) -> bool
    ensures { result ≡ same_list (line lines.now j) (line after.now j) }
{
    let n = lines::len(lines, j);
    n == lines::len(after, j) && same_front(lines, after, j, n)
}

// Whether a clock runs out at the tick.
pub fn runs_out(k: Clock) -> bool
    ensures { result ≡ (aged k).fired }
{
    let older = clocks::ageing::aged(k);
    older.fired
}
