// The text of a replay in a lent buffer. Each function writes at a place and says where the text ends; what does not fit is left off.
#![tactic(auto)]

ghost use Rattle.std.specs.Prelude.{◌∷◌, [], ◌++◌, length};
ghost use Rattle.rules.specs.Text.{digits, decimal, space, line_feed, thread_text, line_text, word_text};
ghost use Rattle.text.specs.Part.{FrontOf};
ghost use Rattle.text.specs.Put.{PutIn, Put};

use rules::{Answer, Thread};

// How many bytes a text has room for.
pub const TEXT_BYTES: usize = 16384;

// A buffer of text, and beside it where the text ends. Stays so: `Put` tells of a text at any place of any buffer, and of every other byte; no heap.
pub type Text = [u8; TEXT_BYTES];

pub fn put_byte(out: &mut Text, at: usize, b: u8) -> usize
    ensures { Put out.old at (b ∷ []) out.new result }
{
    if at < TEXT_BYTES {
        out[at] = b;
        return at + 1;
    }
    at
}

// n in decimal, of at most k digits.
fn put_digits(out: &mut Text, at: usize, k: usize, n: u64) -> usize
    ensures { Put out.old at (digits k n) out.new result }
{
    if k == 0 {
        return at;
    }
    if n < 10 {
        return put_byte(out, at, b'0' + n as u8);
    }
    let p = put_digits(out, at, k - 1, n / 10);
    put_byte(out, p, b'0' + (n % 10) as u8)
}

// n in plain decimal.
#[tactic(auto, unfolding(rules::specs::Text::decimal))]
pub fn put_decimal(out: &mut Text, at: usize, n: u64) -> usize
    ensures { Put out.old at (decimal n) out.new result }
{
    put_digits(out, at, 20, n)
}

// A number and a space.
pub fn put_column(out: &mut Text, at: usize, n: u64) -> usize
    ensures { Put out.old at (decimal n ++ space) out.new result }
{
    let p = put_decimal(out, at, n);
    put_byte(out, p, b' ')
}

// A letter and a number.
fn put_lettered(out: &mut Text, at: usize, letter: u8, n: u32) -> usize
    ensures { Put out.old at (letter ∷ decimal n) out.new result }
{
    let p = put_byte(out, at, letter);
    put_decimal(out, p, n as u64)
}

// The thread: T or S with its number, or I.
#[tactic(auto, unfolding(rules::specs::Text::thread_text))]
pub fn put_thread(out: &mut Text, at: usize, thread: Thread) -> usize
    ensures { Put out.old at (thread_text thread) out.new result }
{
    match thread {
        Thread::Task(n) => put_lettered(out, at, b'T', n),
        Thread::Swi(n) => put_lettered(out, at, b'S', n),
        Thread::Interrupt => put_byte(out, at, b'I'),
    }
}

// The line of record n.
pub fn put_line(out: &mut Text, at: usize, n: u64, answer: Answer, thread: Thread) -> usize
    ensures { Put out.old at (line_text n answer thread ++ line_feed) out.new result }
{
    let code = put_column(out, at, n);
    let outcome = put_column(out, code, answer.code as u64);
    let value = put_column(out, outcome, answer.outcome as u64);
    let last = put_column(out, value, answer.value as u64);
    let end = put_thread(out, last, thread);
    put_byte(out, end, b'\n')
}

// A text in a buffer of any length.
pub fn put_in(out: &mut [u8], at: usize, text: &[u8]) -> usize
    ensures { PutIn (length out.old) out.old at text.now out.new result }
{
    if at >= out.len() {
        return at;
    }
    let n = text.len().min(out.len() - at);
    out[at..at + n].copy_from_slice(&text[..n]);
    at + n
}

// A text as it is.
pub fn put_text(out: &mut Text, at: usize, text: &[u8]) -> usize
    ensures { Put out.old at text.now out.new result }
{
    put_in(out, at, text)
}

// The last line: a word and a number.
pub fn put_word(out: &mut Text, at: usize, word: &[u8], n: u64) -> usize
    ensures { Put out.old at (word_text word.now n ++ line_feed) out.new result }
{
    let p = put_text(out, at, word);
    let q = put_byte(out, p, b' ');
    let end = put_decimal(out, q, n);
    put_byte(out, end, b'\n')
}

// The first n bytes, as that part; all where there are fewer.
pub fn front<'a>(bytes: &'a [u8], n: usize) -> &'a [u8]
    ensures { FrontOf bytes.entry n result }
{
    if n < bytes.len() {
        return &bytes[..n];
    }
    bytes
}
