// What the words of a row say: a semaphore's most, an event's match, a heap unit's entry, the current task, the number of levels; and one
// less of a word.
ghost use Rattle.std.specs.Prelude.{◌≡◌, ◌-◌};
ghost use Rattle.rules.specs.Semaphores.{is_binary, most};
ghost use Rattle.rules.specs.Events.{matched};
ghost use Rattle.rules.specs.Heap.{unit};
ghost use Rattle.rules.specs.Tables.{current, levels};

use rules::numbers::{COUNT_MOST, CURRENT, FREE, HEAP_UNITS, LEVELS, TASK_COUNT};
use rules::{Heap, State};

// Kinds 1 and 3 are binary.
pub fn is_binary(kind: u32) -> bool
    ensures { result ≡ is_binary kind }
{
    (kind == 1) | (kind == 3)
}

// How far a count of this kind goes.
#[tactic(auto, unfolding(rules::specs::Semaphores::most))]
pub fn most(kind: u32) -> u32
    ensures { result ≡ most kind }
{
    if is_binary(kind) {
        return 1;
    }
    COUNT_MOST
}

// The posted bits in the or-mask, and the whole and-mask if all its bits are posted.
#[tactic(auto, unfolding(rules::specs::Events::matched))]
pub fn matched(bits: u32, and_mask: u32, or_mask: u32) -> u32
    ensures { result ≡ matched bits and_mask or_mask }
{
    let whole = if bits & and_mask == and_mask {
        and_mask
    } else {
        0
    };
    (bits & or_mask) | whole
}

// The entry of unit u; past the heap nothing can be had.
pub fn unit(heap: &Heap, u: usize) -> u8
    ensures { result ≡ unit heap.now u }
{
    if u < HEAP_UNITS {
        return heap[u];
    }
    FREE
}

// One less, and 0 stays 0.
pub fn one_less(n: u32) -> u32
    ensures { result ≡ n - 1 }
{
    n.saturating_sub(1)
}

// The current task; a number that is no task's counts as 0.
#[tactic(auto, unfolding(rules::specs::Tables::current))]
pub fn current(state: &State) -> u8
    ensures { result ≡ current state.now }
{
    let i = state[CURRENT];
    if i < TASK_COUNT {
        return i as u8;
    }
    0
}

// How many levels of priority the tasks have: 16 or 32; another number counts as 16.
#[tactic(auto, unfolding(rules::specs::Tables::levels))]
pub fn levels(state: &State) -> u32
    ensures { result ≡ levels state.now }
{
    if state[LEVELS] == rules::numbers::MOST_LEVELS {
        return rules::numbers::MOST_LEVELS;
    }
    rules::numbers::FEW_LEVELS
}
