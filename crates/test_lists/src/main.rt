// Lists of calls by hand on one set of tables: good ones and bad ones, and at last on tables that are not sound. Each row has its line, how many words of
// the answer room are filled, and a sum over these.
#![tactic(auto)]

use call_lists::front;
use rules::numbers::{FEW_LEVELS, FOREVER, LEVELS};
use rules::{Step, Tables};
use test_calls::in_place::call_list;
use test_calls::print::print;
use text::Text;

// A call's number and its four arguments: said again, and not taken from the core.
const CALL_WORDS: usize = 5;

// Document 01's sample: create at 5; semaphore kind 0 count 0; pend on 0 without end; post 0; post 7.
const SAMPLE_CALLS: usize = 5;

const SAMPLE: [[u32; CALL_WORDS]; SAMPLE_CALLS] = [
    [0x00, 5, 0, 0, 0],
    [0x20, 0, 0, 0, 0],
    [0x22, 0, FOREVER, 0, 0],
    [0x23, 0, 0, 0, 0],
    [0x23, 7, 0, 0, 0],
];

// The longest list: one call more than a list may have.
const MOST_WORDS: usize = 1285;

type List = [u32; MOST_WORDS];

// Room for the answers to 256 calls, and eight words more.
const MOST_ROOM: usize = 776;

type Room = [u32; MOST_ROOM];

// What each word of the room is before a list.
const UNTOUCHED: u32 = u32::MAX;

// No call's number, although its lowest byte is one.
const NO_NUMBER: u32 = 256;

// The row whose first call has no call's number, and the first one on tables that are not sound.
const WRONG_NUMBER: u64 = 13;

const UNSOUND: u64 = 14;

// How many words of the list and of the room each row lends; the rows are counted from 1.
const ROWS: [(usize, usize); 16] = [
    (0, 0),
    (25, 15),
    (25, 14),
    (24, MOST_ROOM),
    (1, MOST_ROOM),
    (26, MOST_ROOM),
    (25, MOST_ROOM),
    (1280, 767),
    (1280, 768),
    (1281, MOST_ROOM),
    (MOST_WORDS, MOST_ROOM),
    (0, MOST_ROOM),
    (25, 15),
    (0, 0),
    (24, MOST_ROOM),
    (25, 15),
];

// The sample's words again and again.
fn fill(list: &mut List) {
    for (j, word) in list.iter_mut().enumerate() {
        *word = SAMPLE[j / CALL_WORDS % SAMPLE_CALLS][j % CALL_WORDS];
    }
}

// The words of which row n lends the first.
fn words_of(n: u64) -> List {
    let mut list = [0u32; MOST_WORDS];
    fill(&mut list);
    if n == WRONG_NUMBER {
        list[0] = NO_NUMBER;
    }
    list
}

// How many words are no longer as they were.
fn filled(room: &Room) -> usize {
    room.iter().filter(|word| **word != UNTOUCHED).count()
}

// A sum over these words, in which their places count.
fn sum_of(room: &Room) -> u32 {
    let mut sum = 0u32;
    for (j, word) in room.iter().enumerate() {
        if *word != UNTOUCHED {
            sum = (sum ^ *word).wrapping_add(j as u32);
        }
    }
    sum
}

// The lines of a row.
fn put_row(out: &mut Text, n: u64, step: Step, room: &Room) -> usize {
    let p = text::put_line(out, 0, n, step.answer, step.thread);
    let q = text::put_word(out, p, b"filled", filled(room) as u64);
    text::put_word(out, q, b"sum", u64::from(sum_of(room)))
}

// From a row on the tables are not sound: they have 17 levels.
fn prepare(t: Tables, n: u64) -> Tables {
    let mut u = t;
    if n == UNSOUND {
        u.state[LEVELS] = 17;
    }
    u
}

// Hands the list of row n over, and prints what came of it. Answers the next tables.
fn hand_over(rt: &HostRuntime, t: Tables, n: u64, lent: (usize, usize)) -> Tables {
    let words = words_of(n);
    let mut room = [UNTOUCHED; MOST_ROOM];
    let end = lent.1.min(MOST_ROOM);
    let step = call_list(t, front(&words, lent.0), &mut room[..end]);
    print(rt, |out| put_row(out, n, step, &room));
    step.tables
}

fn main(rt: HostRuntime) {
    let mut t = entries::fresh(FEW_LEVELS).tables;
    for (i, lent) in ROWS.iter().enumerate() {
        let n = i as u64 + 1;
        t = hand_over(&rt, prepare(t, n), n, *lent);
    }
}
