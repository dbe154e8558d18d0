// Searches for the highest of sixteen queues again and again, and prints a sum over what was found: for measuring. The search for posted
// Swis walks through the queues, the search for ready tasks makes a word of them, with 32 levels one of each half.
//
// The arguments: `posted`, `ready`, `wide` for ready tasks with 32 levels, or another for one look at one queue; how often, as for `pace`; and
// `best` where queue 15 is the filled one, a walk's best case, `worst` where it is queue 0, or another for each queue in turn. Of the first and
// the third only the first letter counts.
//
// The stored run makes 100 searches, with each queue filled in turn. One that finds queue p adds p + 1: six times all sixteen make
// 6 * 136, and the last four 1 + 2 + 3 + 4, together 826.
#![tactic(auto)]

ghost use Rattle.std.specs.Prelude.{◌≤◌};

use rules::numbers::{
    FEW_QUEUES, LEVELS, LINE_BYTES, LINE_WIDTH, POSTED_LINES, READY_LINES, STATE_WIDTH,
};
use rules::{Lines, State};

// How many queues of each kind there are.
const QUEUES: usize = FEW_QUEUES;

// What is searched for: posted Swis, ready tasks with 16 levels or with 32; or one look at one queue.
#[derive(Clone, Copy)]
enum Search {
    Posted,
    Ready,
    Wide,
    Look,
}

// By the first letter of the program's first argument.
fn search_for(letter: u8) -> Search {
    match letter {
        b'p' => Search::Posted,
        b'r' => Search::Ready,
        b'w' => Search::Wide,
        _ => Search::Look,
    }
}

// The queue that is filled first, and how far on the next one is each time.
#[derive(Clone, Copy)]
struct Filled {
    first: usize,
    step: usize,
}

// The first letter of argument k; 0 where there is none.
fn letter(rt: &HostRuntime, k: usize) -> u8 {
    let mut name = [0u8; streams::WORD_BYTES];
    let length = streams::word(rt, k, &mut name).unwrap_or(0);
    name[..length].first().copied().unwrap_or(0)
}

// Which queues are filled, by the first letter of the program's third argument.
fn queues_for(letter: u8) -> Filled {
    match letter {
        b'b' => Filled {
            first: QUEUES - 1,
            step: 0,
        },
        b'w' => Filled { first: 0, step: 0 },
        _ => Filled { first: 0, step: 1 },
    }
}

// How many levels the chosen search looks through.
fn levels_for(search: Search) -> u32 {
    match search {
        Search::Wide => rules::numbers::MOST_LEVELS,
        _ => rules::numbers::FEW_LEVELS,
    }
}

// 1 where somebody stands in the ready queue of priority p, else 0.
fn look(lines: &Lines, p: usize) -> usize
    ensures { result ≤ 1 }
{
    usize::from(lines::anyone(lines, READY_LINES + p % QUEUES))
}

// What the chosen search found. Stays a match at each search, not a closure that is chosen once: with closures `main` says the call of `searches` once
// for each of them.
fn found_at(lines: &Lines, state: &State, search: Search, p: usize) -> usize
    ensures { result ≤ 32 }
{
    match search {
        Search::Posted => dispatch::due::highest_posted(lines),
        Search::Ready | Search::Wide => dispatch::due::highest_ready(lines, state),
        Search::Look => look(lines, p),
    }
}

// The same as a number to be added.
fn found(lines: &Lines, state: &State, search: Search, p: usize) -> u32 {
    found_at(lines, state, search, p) as u32
}

// Makes n the number of those who stand in the two queues of priority p, of posted Swis and of ready tasks.
fn set(lines: &mut Lines, p: usize, n: u8) {
    lines[(POSTED_LINES + p % QUEUES) * LINE_WIDTH] = n;
    lines[(READY_LINES + p % QUEUES) * LINE_WIDTH] = n;
}

// n searches. Before each somebody joins the queues of one priority, and after it they are empty again.
fn searches(lines: &mut Lines, state: &State, search: Search, filled: Filled, n: u32) -> u32 {
    let mut sum = 0u32;
    let mut p = filled.first;
    for _ in 0..n {
        set(lines, p, 1);
        sum = sum.wrapping_add(found(lines, state, search, filled.first));
        set(lines, p, 0);
        p = p.wrapping_add(filled.step);
    }
    sum
}

fn main(rt: HostRuntime) {
    let mut lines = [0u8; LINE_BYTES];
    let search = search_for(letter(&rt, 1));
    let mut state = [0u32; STATE_WIDTH];
    state[LEVELS] = levels_for(search);
    let filled = queues_for(letter(&rt, 3));
    let rounds = pace_sums::rounds(&rt, 2);
    let sum = searches(&mut lines, &state, search, filled, rounds);
    pace_sums::print_sum(&rt, sum);
}
