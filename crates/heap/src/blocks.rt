// Units and blocks of the heap's map: how many units bytes take, how long a block is, a block marked.
ghost use Rattle.std.specs.Prelude.{◌≡◌, ◌∷◌, ◌-◌, replicate};
ghost use Rattle.rules.specs.Heap.{with_units, units_of, block_size, is_block};

use super::free_units::adjacent;
use rules::Heap;
use rules::numbers::{
    FIRST_OF, HEAP_UNITS, LAST_UNIT, LATER_IN, UNIT_BYTES, UNIT_LESS_ONE, UNIT_WIDTH,
};

// Bytes, rounded up to units.
pub fn units(bytes: u32) -> usize
    ensures { result ≡ units_of bytes }
{
    (bytes as usize + UNIT_LESS_ONE) / UNIT_WIDTH
}

// The units of the block whose first is u: it, and those that follow as later ones.
pub fn block_size(heap: &Heap, u: usize) -> usize
    ensures { result ≡ block_size heap.now u }
{
    if LAST_UNIT <= u {
        return 1;
    }
    adjacent(heap, u + 1, LAST_UNIT - u, LATER_IN) + 1
}

// The entries of n units from u on: the first one's, and the later ones'. Past the heap nothing
// changes.
pub fn mark(heap: &mut Heap, u: usize, n: usize, first: u8, later: u8)
    ensures { heap.new ≡ with_units heap.old u (first ∷ replicate (n - 1) later) }
{
    if u < HEAP_UNITS {
        if n <= HEAP_UNITS - u {
            heap[u] = first;
            for k in 1..n {
                heap[u + k] = later;
            }
        }
    }
}

// A live block starts at byte a, and b bytes round up to its size.
#[tactic(auto, unfolding(rules::specs::Heap::is_block))]
pub fn is_block(heap: &Heap, a: u32, b: u32) -> bool
    ensures { result ≡ is_block heap.now a b }
{
    if a % UNIT_BYTES != 0 {
        return false;
    }
    let u = (a / UNIT_BYTES) as usize;
    if rows::readings::unit(heap, u) != FIRST_OF {
        return false;
    }
    units(b) == block_size(heap, u)
}
