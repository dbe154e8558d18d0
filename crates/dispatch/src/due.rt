// What the dispatch rule has left to do: whether a Swi is due to start, whether the front task is
// due to run, and which ones they are.
ghost use Rattle.std.specs.Prelude.{◌≡◌, not, ◌+◌, ◌-◌, ◌^◌, ◌≤◌, min};
ghost use Rattle.basics.specs.Lists.{bit};
ghost use Rattle.basics.specs.Find.{word_below, highest_below};
ghost use Rattle.rules.specs.Tables.{levels};
ghost use Rattle.rules.specs.Lines.{anyone, ready_line};
ghost use Rattle.rules.specs.Dispatch.{highest_posted, active_level, swi_due, highest_ready, front, task_due};

use lines::anyone;
use rules::numbers::{
    ACTIVE_LINE, DEPTH, FEW_QUEUES, LEVELS, POSTED_LINES, PRIORITY, READY_LINES, SWI_QUEUES,
};
use rules::{Lines, State, Swis};

// The queues with 16 levels are half of those with 32: the first priority of the upper half.
const UPPER_HALF: u8 = 16;

// How many bits a word has.
const WORD_BITS: usize = 32;

// One more than the highest priority at which a Swi is posted; 0 where none is.
pub fn highest_posted(lines: &Lines) -> usize
    ensures { (result ≡ highest_posted lines.now) × (result ≤ 16) }
{
    for p in (0..SWI_QUEUES).rev() {
        if anyone(lines, POSTED_LINES + p) {
            return p + 1;
        }
    }
    0
}

// 1 where nobody stands in line j, else 0.
fn empty(lines: &Lines, j: usize) -> u32
    ensures { (result ≡ bit (not (anyone lines.now j))) × (result ≤ 1) }
{
    u32::from(!anyone(lines, j))
}

// A word with its n lowest bits set; all 32 where n is 32 or more.
fn ones(n: usize) -> u32
    ensures { result ≡ 2 ^ min n 32 - 1 }
{
    if n < WORD_BITS {
        return (1 << n) - 1;
    }
    u32::MAX
}

// No. 6: 'a word with one bit for each non-empty queue', of the n ready queues from priority
// `from` on: bit p for priority from + p. There is room for 32; queues past them are left out.
// The word of the empty queues is made from the highest down, and the others are the bits that
// it leaves. For a fixed n of up to 16 that compiles to no branch, and to fewer instructions than
// if a bit were put in for each queue that is not empty.
fn ready_queues(lines: &Lines, from: u8, n: usize) -> u32
    ensures { result ≡ word_below (min n 32) (λ p. anyone lines.now (ready_line (from + p))) }
{
    let first = basics::wide(from);
    let mut empties = 0;
    for p in (0..basics::least(n, WORD_BITS)).rev() {
        empties = empties * 2 + empty(lines, READY_LINES + (first + p));
    }
    ones(n) - empties
}

// Of these queues, one more than the place of the highest that is not empty; 0 where all are.
// No. 6: 'find the top one by the count of leading zeros'.
fn highest_from(lines: &Lines, from: u8, n: usize) -> usize
    ensures { (result ≡ highest_below (min n 32) (λ p. anyone lines.now (ready_line (from + p)))) × (result ≤ min n 32) }
{
    WORD_BITS - u32::leading_zeros(ready_queues(lines, from, n)) as usize
}

// One more than the highest priority at which a task is ready; 0 where none is. With 32 levels the
// upper half is searched first: a search of sixteen queues compiles to no loop.
pub fn highest_ready(lines: &Lines, state: &State) -> usize
    ensures { (result ≡ highest_ready (levels state.now) lines.now) × (result ≤ 32) }
{
    if state[LEVELS] != rules::numbers::MOST_LEVELS {
        return highest_from(lines, 0, FEW_QUEUES);
    }
    let upper = highest_from(lines, UPPER_HALF, FEW_QUEUES);
    if upper != 0 {
        return FEW_QUEUES + upper;
    }
    highest_from(lines, 0, FEW_QUEUES)
}

// One more than the top active Swi's priority; 0 where none is active.
#[tactic(auto, unfolding(rules::specs::Dispatch::active_level))]
pub fn active_level(swis: &Swis, lines: &Lines) -> usize
    ensures { result ≡ active_level swis.now lines.now }
{
    if anyone(lines, ACTIVE_LINE) {
        let i = basics::wide(lines::top(lines));
        return rows::swi(swis, i, PRIORITY) as usize + 1;
    }
    0
}

// At depth 0 with Swis on, the highest posted Swi is above the top active one, or none is active.
#[tactic(auto, unfolding(rules::specs::Dispatch::swi_due))]
pub fn swi_due(swis: &Swis, lines: &Lines, state: &State) -> bool
    ensures { result ≡ swi_due swis.now lines.now state.now }
{
    if state[DEPTH] != 0 {
        return false;
    }
    if state[rules::numbers::SWIS] == 0 {
        return false;
    }
    active_level(swis, lines) < highest_posted(lines)
}

// Depth 0, no Swi active and both switches on.
#[tactic(auto, unfolding(rules::specs::Dispatch::task_due))]
pub fn task_due(lines: &Lines, state: &State) -> bool
    ensures { result ≡ task_due lines.now state.now }
{
    if state[DEPTH] != 0 {
        return false;
    }
    if anyone(lines, ACTIVE_LINE) {
        return false;
    }
    (state[rules::numbers::SWIS] != 0) & (state[rules::numbers::TASKS] != 0)
}

// The front of the highest non-empty ready queue; 0 where all are empty.
pub fn front(lines: &Lines, state: &State) -> u8
    ensures { result ≡ front (levels state.now) lines.now }
{
    let level = highest_ready(lines, state);
    if level == 0 {
        return 0;
    }
    lines::first(lines, READY_LINES + (level - 1))
}
