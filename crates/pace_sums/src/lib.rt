// What the programs that time the call core have in common: the calls of a log as words, a sum over all answers, and the rounds that make them again
// and again.
#![tactic(auto)]

ghost use Rattle.std.specs.Prelude.{◌≡◌, min, ◌++◌};
ghost use Rattle.std.proofs.lemmas.List.Edits.{sets};
ghost use Rattle.io.specs.Counts.{IsPrefixLen};
ghost use Rattle.rules.specs.Log.{version_of, levels_for};
ghost use Rattle.rules.specs.Text.{word_text, line_feed};
ghost use Rattle.text.specs.Put.{Put};
ghost use Rattle.pace_sums.specs.Pace.{call_words, thread_word, added, rounds_for, sum_word};

use call_lists::{CALL_WORDS, call_at};
use kernel::Said;
use rules::{Answer, Call, Thread};
use std::io::Read;
use text::Text;

// Of a log the first 3,276 records are used.
const RECORDS: usize = 3276;

pub type Log = [u8; RECORDS * 20];

// A call's number and its four arguments, one call after the other.
pub type Calls = [u32; RECORDS * 5];

// How many levels the log's version means.
pub fn levels_of(log: &Log) -> u32
    ensures { result ≡ levels_for (version_of log.now) }
{
    call_log::levels_for(call_log::version_of(log))
}

// The first n records as words.
pub fn as_calls(log: &Log, calls: &mut Calls, n: usize)
    ensures { calls.new ≡ sets calls.old 0 (call_words (min n 3276) log.now) }
{
    for k in 0..n.min(RECORDS) {
        let bytes = call_log::reader::read_arguments(log, k * 20 + 4);
        calls[k * 5] = u32::from(log[k * 20 + 3]);
        calls[k * 5 + 1] = call_log::argument(bytes, 0);
        calls[k * 5 + 2] = call_log::argument(bytes, 1);
        calls[k * 5 + 3] = call_log::argument(bytes, 2);
        calls[k * 5 + 4] = call_log::argument(bytes, 3);
    }
}

// The letter of a thread and its number.
#[tactic(auto, unfolding(crate::specs::Pace::thread_word))]
fn thread_word(thread: Thread) -> u32
    ensures { result ≡ thread_word thread }
{
    match thread {
        Thread::Task(i) => 84 ^ i,
        Thread::Swi(i) => 83 ^ i,
        Thread::Interrupt => 73,
    }
}

// The sum goes on by an answer and a thread; their order counts.
#[tactic(auto, unfolding(crate::specs::Pace::added))]
pub fn add(sum: u32, answer: Answer, thread: Thread) -> u32
    ensures { result ≡ added sum answer thread }
{
    let with_value = (sum ^ answer.code).wrapping_add(answer.value);
    (with_value ^ answer.outcome).wrapping_add(thread_word(thread))
}

// The sum goes on by what each of the calls answers, one after the other.
pub fn make_calls<F: FnMut(Call) -> Said>(calls: &[u32], from: u32, mut call: F) -> u32
    requires { F.IsAlwaysCallable call }
{
    let mut sum = from;
    for k in 0..calls.len() / CALL_WORDS {
        let said = call(call_at(calls, k));
        sum = add(sum, said.answer, said.thread);
    }
    sum
}

// How often the log is gone through, by a program's argument: 0 is once, 1 ten times, 2 a hundred times and so on.
#[tactic(auto, unfolding(crate::specs::Pace::rounds_for))]
pub fn rounds_for(argument: &[u8]) -> u32
    ensures { result ≡ rounds_for argument.now }
{
    match argument.first().copied().unwrap_or(0) {
        b'1' => 10,
        b'2' => 100,
        b'3' => 1000,
        b'4' => 10000,
        _ => 1,
    }
}

// The line of the sum.
pub fn put_sum(out: &mut Text, sum: u32) -> usize
    ensures { Put out.old 0 (word_text sum_word sum ++ line_feed) out.new result }
{
    text::put_word(out, 0, b"sum", u64::from(sum))
}

// How often, by the program's argument k.
pub fn rounds(rt: &HostRuntime, k: usize) -> u32 {
    let mut name = [0u8; streams::WORD_BYTES];
    let length = streams::word(rt, k, &mut name).unwrap_or(0);
    rounds_for(&name[..length])
}

// Puts the line of the sum into a buffer, and writes it from there.
pub fn print_sum(rt: &HostRuntime, sum: u32) {
    let mut out = [0u8; 16384];
    let len = put_sum(&mut out, sum);
    let _ = rt.write_all(text::front(&out, len));
}

// Reads standard input, once: a file gives all that fits.
fn read_log(rt: &HostRuntime, log: &mut Log) -> usize
    ensures { IsPrefixLen result log.new }
{
    rt.stdin().read(log).unwrap_or(0)
}

// Reads the log on standard input, makes its calls as often as the program's first argument says, and prints the sum. A round gets the levels, the words
// of the calls, and the sum so far, and answers the sum after it.
pub fn measure<F: Fn(u32, &[u32], u32) -> u32>(rt: &HostRuntime, round: F)
    requires { F.IsAlwaysCallable round }
{
    let mut log = [0u8; RECORDS * 20];
    let n = read_log(rt, &mut log) / 20;
    let mut room = [0u32; RECORDS * 5];
    as_calls(&log, &mut room, n);
    let calls = &room[..n.min(RECORDS) * 5];
    let levels = levels_of(&log);
    let mut sum = 0;
    for _ in 0..rounds(rt, 1) {
        sum = round(levels, calls, sum);
    }
    print_sum(rt, sum);
}
