// A semaphore's row, and the first row that is free.
ghost use Rattle.std.specs.Prelude.{◌≡◌, [], ◌∷◌, ◌≤◌};
ghost use Rattle.rules.specs.Tables.{semaphore_row};
ghost use Rattle.rules.specs.Semaphores.{free_semaphore};

use rules::Semaphores;
use rules::numbers::{SEMAPHORE_ROWS_U8, SEMAPHORE_WIDTH_U8, USED};

// The lowest free number; 16 where there is none. Stays a number, and no Option: `free_semaphore` of rules/specs is that number.
#[tactic(auto, unfolding(rules::specs::Semaphores::free_semaphore))]
pub fn free_semaphore(semaphores: &Semaphores) -> usize
    ensures { (result ≡ free_semaphore semaphores.now) × (result ≤ 16) }
{
    rows::first_zero(semaphores, SEMAPHORE_WIDTH_U8, SEMAPHORE_ROWS_U8, USED)
}

// Row i has these words.
pub fn put_semaphore(semaphores: &mut Semaphores, i: usize, used: u32, kind: u32, count: u32)
    ensures { semaphores.new ≡ semaphore_row semaphores.old i (used ∷ kind ∷ count ∷ []) }
{
    rows::put_row(
        semaphores,
        SEMAPHORE_WIDTH_U8,
        SEMAPHORE_ROWS_U8,
        i,
        &[used, kind, count],
    )
}
