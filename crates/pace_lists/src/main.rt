// Makes the calls of the log on standard input with `call_list`, by lists of 256, again and again, and prints a sum over all answers: for measuring.
#![tactic(auto)]

use call_lists::{ANSWER_WORDS, CALL_WORDS, MOST_CALLS, answer_at, front};
use rules::{Tables, Thread};

// A list of as many calls as it may have.
const LIST_WORDS: usize = MOST_CALLS * CALL_WORDS;

// Room for their answers.
const ROOM_WORDS: usize = MOST_CALLS * ANSWER_WORDS;

type Room = [u32; ROOM_WORDS];

// The sum goes on by each answer, with the thread that the list gave.
fn add_answers(from: u32, answers: &[u32], thread: Thread) -> u32 {
    let mut sum = from;
    for i in 0..answers.len() / ANSWER_WORDS {
        sum = pace_sums::add(sum, answer_at(answers, i), thread);
    }
    sum
}

// How many words the answers to a list of so many words have.
fn answer_words(words: usize) -> usize {
    words / CALL_WORDS * ANSWER_WORDS
}

// One list.
fn make_list(tables: &mut Tables, calls: &[u32], room: &mut Room, from: u32) -> u32 {
    let said = entries::call_list(tables, calls, room);
    add_answers(from, front(room, answer_words(calls.len())), said.thread)
}

// The calls, from fresh tables of so many levels.
fn one_round(levels: u32, calls: &[u32], from: u32) -> u32 {
    let mut tables = entries::fresh(levels).tables;
    let mut room = [0u32; ROOM_WORDS];
    let mut sum = from;
    for list in calls.chunks(LIST_WORDS) {
        sum = make_list(&mut tables, list, &mut room, sum);
    }
    sum
}

fn main(rt: HostRuntime) {
    pace_sums::measure(&rt, one_round);
}
