// Replays each log that an argument names, whole in memory, under a line with its name, and makes its calls by lists.
#![tactic(auto)]

mod lists;

use lists::print_sums;
use std::io::Read;
use streams::fail;

// A log has at most so many bytes here, and its text so many.
const MOST_BYTES: usize = 80000;

const MOST_TEXT: usize = 100100;

// The log's name in a line.
fn print_name(rt: &HostRuntime, name: &[u8]) {
    let _ = rt.write_all(name);
    let _ = rt.write_all(b"\n");
}

// The text of a log.
fn print_text(rt: &HostRuntime, log: &[u8]) {
    let mut out = [0u8; MOST_TEXT];
    let put = desk_whole::replay_log(log, &mut out);
    let _ = rt.write_all(text::front(&out, put));
}

// Says of `name` that its log is too long.
fn tell_longer(rt: &HostRuntime, name: &[u8]) {
    let _ = rt.stderr().write_all(name);
    let _ = rt.stderr().write_all(
        b": was not read to its end, and a log has at most 80,000 bytes here\n",
    );
}

// Whether the log has ended where reading stopped, which one more read tells; `name` is told where it has not.
fn has_ended<R: Read>(rt: &HostRuntime, from: &mut R, name: &[u8]) -> bool {
    let mut more = [0u8; 1];
    match from.read(&mut more) {
        Ok(0) => true,
        Ok(_) => {
            tell_longer(rt, name);
            false
        }
        Err(error) => {
            fail(rt, name, error);
            false
        }
    }
}

// The log that can be read. It has at most 4,000 records, each with a line of at most 25 bytes, so that the text fits.
fn replay_whole<R: Read>(rt: &HostRuntime, from: &mut R, name: &[u8]) {
    let mut log = [0u8; MOST_BYTES];
    let length = streams::read_full(from, &mut log);
    if has_ended(rt, from, name) {
        print_text(rt, &log[..length]);
        print_sums(rt, &log[..length]);
    }
}

// The log in the file of this name.
fn replay_file(rt: &HostRuntime, name: &[u8]) {
    print_name(rt, name);
    match streams::open(rt, name) {
        Ok(mut log) => replay_whole(rt, &mut log, name),
        Err(error) => fail(rt, name, error),
    }
}

// The log that argument i names.
fn replay_named(rt: &HostRuntime, i: usize) {
    let mut name = [0u8; streams::WORD_BYTES];
    match streams::word(rt, i, &mut name) {
        Ok(length) => replay_file(rt, &name[..length]),
        Err(error) => fail(rt, b"argument", error),
    }
}

fn main(rt: HostRuntime) {
    for i in 1..streams::words(&rt) {
        replay_named(&rt, i);
    }
}
