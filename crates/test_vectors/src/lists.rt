// The calls of a log by lists on lent tables, and the same calls one by one on tables by value: all that the two leave is compared.
ghost use Rattle.std.specs.Prelude.{◌≤◌, ◌<◌};

use call_log::reader::Reader;
use rules::{Answer, Call, Read, Step, Tables, Thread};
use test_calls::in_place::call_list;
use test_calls::print::print;
use test_same::{same_answer, same_tables, same_thread};
use text::Text;

// What a list and its answers look like is said here again and not taken from the core: a test must not move with what it tests.
// A call's number and its four arguments.
const CALL_WORDS: usize = 5;

// An answer's code, outcome and value.
const ANSWER_WORDS: usize = 3;

// The calls of a log, of which it has at most 4,000.
const LOG_CALLS: usize = 4000;

type Calls = [u32; LOG_CALLS * CALL_WORDS];

// A list has at most so many calls.
const LIST_CALLS: usize = 256;

// The room for answers has so many words more than are needed.
const MORE_ROOM: usize = 8;

const MOST_ROOM: usize = LIST_CALLS * ANSWER_WORDS + MORE_ROOM;

type Room = [u32; MOST_ROOM];

// What each word of the room is before a list.
const UNTOUCHED: u32 = u32::MAX;

// What single calls left, and whether the list gave the same answers.
// Stays a flag beside the values, here and in `Compared`: they are compared and printed either way.
#[derive(Clone, Copy)]
struct Singly {
    tables: Tables,
    thread: Thread,
    same: bool,
}

// What came of the lists so far: the tables that the single calls left and those that the lists left, the sum over the lists' answers, and whether all was
// the same.
#[derive(Clone, Copy)]
struct Compared {
    tables: Tables,
    in_place: Tables,
    sum: u32,
    same: bool,
}

// The calls of a log up to its end or its fault, in the words of the room.
fn read_calls<'a>(log: &[u8], calls: &'a mut Calls) -> &'a [u32] {
    let mut reader = Reader::new(log);
    for k in 0..LOG_CALLS {
        let Read::Record { number, start } = reader.next() else {
            return &calls[..k * CALL_WORDS];
        };
        let bytes = reader.arguments(start);
        calls[k * CALL_WORDS] = u32::from(number);
        calls[k * CALL_WORDS + 1] = call_log::argument(bytes, 0);
        calls[k * CALL_WORDS + 2] = call_log::argument(bytes, 1);
        calls[k * CALL_WORDS + 3] = call_log::argument(bytes, 2);
        calls[k * CALL_WORDS + 4] = call_log::argument(bytes, 3);
    }
    calls
}

// A call by its five words.
fn call_of(words: &[u32]) -> Call {
    match words {
        [number, a, b, c, d] => Call {
            number: *number,
            a: *a,
            b: *b,
            c: *c,
            d: *d,
        },
        _ => Call {
            number: u32::MAX,
            a: 0,
            b: 0,
            c: 0,
            d: 0,
        },
    }
}

// An answer by its three words, as they stand in the room.
fn answer_of(words: &[u32]) -> Answer {
    match words {
        [code, outcome, value] => Answer {
            code: *code,
            outcome: *outcome,
            value: *value,
        },
        _ => Answer {
            code: UNTOUCHED,
            outcome: UNTOUCHED,
            value: UNTOUCHED,
        },
    }
}

// The sum goes on by the first n answers, each with the thread that the list gave.
fn add_answers(from: u32, room: &Room, n: usize, thread: Thread) -> u32 {
    let mut sum = from;
    for words in room.chunks_exact(ANSWER_WORDS).take(n) {
        sum = pace_sums::add(sum, answer_of(words), thread);
    }
    sum
}

// Whether every word past the first n answers is as it was.
fn is_rest_untouched(room: &Room, n: usize) -> bool {
    room.iter()
        .enumerate()
        .all(|(i, word)| i / ANSWER_WORDS < n || *word == UNTOUCHED)
}

// How many words of the room are lent with a list of so many words.
fn room_for(words: usize) -> usize
    ensures { result ≤ 776 }
{
    (words / CALL_WORDS).min(LIST_CALLS) * ANSWER_WORDS + MORE_ROOM
}

// The calls one by one, each of whose answers is compared with the list's.
fn make_singly(t: Tables, calls: &[u32], room: &Room) -> Singly {
    let mut singly = Singly {
        tables: t,
        thread: entries::thread_of(t),
        same: true,
    };
    for (call, answer) in calls
        .chunks_exact(CALL_WORDS)
        .zip(room.chunks_exact(ANSWER_WORDS))
    {
        let step = entries::call(singly.tables, call_of(call));
        singly = Singly {
            tables: step.tables,
            thread: step.thread,
            same: singly.same & same_answer(step.answer, answer_of(answer)),
        };
    }
    singly
}

// Whether a list was accepted, and left what the single calls did: the tables and the thread.
fn is_same(listed: Step, singly: Singly) -> bool {
    let accepted = Answer {
        code: 0,
        outcome: 0,
        value: 0,
    };
    same_answer(listed.answer, accepted)
        & same_thread(listed.thread, singly.thread)
        & same_tables(singly.tables, listed.tables)
}

// Makes the calls of a list one by one, and compares with what the list left.
fn compare(so_far: Compared, calls: &[u32], room: &Room, listed: Step) -> Compared {
    let n = calls.len() / CALL_WORDS;
    let singly = make_singly(so_far.tables, calls, room);
    Compared {
        tables: singly.tables,
        in_place: listed.tables,
        sum: add_answers(so_far.sum, room, n, listed.thread),
        same: so_far.same & singly.same & is_same(listed, singly) & is_rest_untouched(room, n),
    }
}

// One list, and the same calls one by one.
fn make_list(so_far: Compared, calls: &[u32]) -> Compared {
    let mut room = [UNTOUCHED; MOST_ROOM];
    let end = room_for(calls.len());
    let listed = call_list(so_far.in_place, calls, &mut room[..end]);
    compare(so_far, calls, &room, listed)
}

// All calls, by lists of so many words, from fresh tables of so many levels.
fn make_lists(levels: u32, calls: &[u32], most: usize) -> Compared
    requires { 0 < most }
{
    let t = entries::fresh(levels).tables;
    let mut so_far = Compared {
        tables: t,
        in_place: t,
        sum: 0,
        same: true,
    };
    for list in calls.chunks(most) {
        so_far = make_list(so_far, list);
    }
    so_far
}

// The line of the lists of n calls.
fn put_sum(out: &mut Text, n: usize, compared: Compared) -> usize {
    let p = text::put_text(out, 0, b"lists of ");
    let end = text::put_decimal(out, p, n as u64);
    let word = if compared.same {
        b", sum".as_slice()
    } else {
        b" differ, sum"
    };
    text::put_word(out, end, word, u64::from(compared.sum))
}

// Makes the calls by lists of n calls, and prints the line.
fn print_sum(rt: &HostRuntime, levels: u32, calls: &[u32], n: usize)
    requires { (0 < n) × (n ≤ 256) }
{
    let compared = make_lists(levels, calls, n * CALL_WORDS);
    print(rt, |out| put_sum(out, n, compared));
}

// The lines of a log: its calls by lists of 1, 7 and 256.
pub(crate) fn print_sums(rt: &HostRuntime, log: &[u8]) {
    let levels = call_log::levels_for(call_log::version_of(log));
    let mut room = [0u32; LOG_CALLS * CALL_WORDS];
    let calls = read_calls(log, &mut room);
    print_sum(rt, levels, calls, 1);
    print_sum(rt, levels, calls, 7);
    print_sum(rt, levels, calls, LIST_CALLS);
}
