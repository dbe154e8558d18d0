// The search for free units of the heap: the lowest run of them, and how many adjacent ones have an entry.
ghost use Rattle.std.specs.Prelude.{◌≡◌, ◌≤◌};
ghost use Rattle.rules.specs.Heap.{lowest_run};
ghost use Rattle.heap.specs.Free.{none_free, first_free, free_from, adjacent};

use rules::Heap;
use rules::numbers::{FREE, HEAP_UNITS};

// Of the 16 units from u on none is free; a unit past the heap's end counts as free. It looks at
// each one, with no branch, so that the compiler makes it one comparison of 16 bytes.
fn none_free(heap: &Heap, u: usize) -> bool
    ensures { result ≡ none_free heap.now u }
{
    if 240 < u {
        return false;
    }
    let mut none = true;
    for k in 0..16 {
        none &= heap[u + k] != FREE;
    }
    none
}

// A unit from which on the first free one is the same as from `from` on: 16 at a time are passed.
fn past_full(heap: &Heap, from: usize) -> usize
    ensures { first_free heap.now result ≡ first_free heap.now from }
{
    let mut u = from;
    // Stays a `while`: what it finds says where it ends, not a count.
    while none_free(heap, u) {
        u += 16;
    }
    u
}

// The first free unit from `from` on, which is at most 256; 256 where there is none. It looks at one
// after the other.
fn next_free(heap: &Heap, from: usize) -> usize
    ensures { result ≡ first_free heap.now from }
{
    let mut u = from;
    // Stays a `while`: by `for`, with the larger of `from` and 256 where none is free, a take is 1 percent dearer.
    while u < HEAP_UNITS {
        if heap[u] == FREE {
            return u;
        }
        u += 1;
    }
    u
}

// The same where it may be far: 16 units at a time, then four in a turn, and the last ones singly.
fn first_free(heap: &Heap, from: usize) -> usize
    ensures { result ≡ first_free heap.now from }
{
    let mut u = past_full(heap, from);
    // Stays four tests in a turn: one at a time a take is 5 percent dearer.
    while u < 253 {
        if heap[u] == FREE {
            return u;
        }
        if heap[u + 1] == FREE {
            return u + 1;
        }
        if heap[u + 2] == FREE {
            return u + 2;
        }
        if heap[u + 3] == FREE {
            return u + 3;
        }
        u += 4;
    }
    next_free(heap, u)
}

// How many adjacent units from u on have this entry, n at most.
pub fn adjacent(heap: &Heap, u: usize, n: usize, entry: u8) -> usize
    ensures { result ≡ adjacent heap.now u n entry }
{
    if HEAP_UNITS <= u {
        return 0;
    }
    let most = n.min(HEAP_UNITS - u);
    for k in 0..most {
        if heap[u + k] != entry {
            return k;
        }
    }
    most
}

// The lowest place from u on from which all units before `end` are free. It looks from the end on,
// because the last unit that is not free rules out the most starts.
fn free_from(heap: &Heap, u: usize, end: usize) -> usize
    ensures { result ≡ free_from heap.now u end }
{
    for p in (u..end.min(HEAP_UNITS)).rev() {
        if heap[p] != FREE {
            return p + 1;
        }
    }
    u
}

// Where the lowest run of n adjacent free units starts; 256 where there is none. Stays a number: so `lowest_run` of rules/specs says.
// Not in line: in `kernel::step` the compiler would count a second number in the loop of `free_from`, for the search behind it.
#[inline(never)]
pub fn lowest_run(heap: &Heap, n: usize) -> usize
    ensures { (result ≡ lowest_run heap.now n) × (result ≤ 256) }
{
    if HEAP_UNITS < n {
        return HEAP_UNITS;
    }
    // no run of n starts before u
    let mut u = 0;
    // Stays a `while`: u goes on to where the next run can start, not one on.
    while u <= HEAP_UNITS - n {
        let p = free_from(heap, u, u + n);
        if p == u {
            return u;
        }
        // a run that starts before p would have the unit before p, which is not free
        u = first_free(heap, p);
    }
    HEAP_UNITS
}
