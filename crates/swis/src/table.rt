// A Swi's row, and what the calls ask of Swis.
ghost use Rattle.std.specs.Prelude.{◌≡◌, ◌≤◌, not, ◌||◌, [], ◌∷◌, ◌==◌};
ghost use Rattle.rules.specs.Tables.{swi, swi_row, POSTED};
ghost use Rattle.rules.specs.Swis.{is_active, is_named, free_swi};

use rules::numbers::{ACTIVE_LINE, CLOCK_ROWS, POSTED, SWI_ROWS_U8, SWI_WIDTH_U8, USED};
use rules::{Clocks, Lines, Swis};

// Swi i's six words; where there is no such Swi nothing changes. Stays a list of words: the clause names each, and a Swi has no type of its own.
pub fn put_swi(
    swis: &mut Swis,
    i: usize,
    used: u32,
    priority: u32,
    initial: u32,
    trigger: u32,
    posted: u32,
    taken: u32,
)
    ensures { swis.new ≡ swi_row swis.old i (used ∷ priority ∷ initial ∷ trigger ∷ posted ∷ taken ∷ []) }
{
    let row = [used, priority, initial, trigger, posted, taken];
    rows::put_row(swis, SWI_WIDTH_U8, SWI_ROWS_U8, i, &row);
}

// The lowest free number; 16 where none is free. Stays a number, and no Option: `free_swi` of rules/specs is that number.
#[tactic(auto, unfolding(rules::specs::Swis::free_swi))]
pub fn free_swi(swis: &Swis) -> usize
    ensures { (result ≡ free_swi swis.now) × (result ≤ 16) }
{
    rows::first_zero(swis, SWI_WIDTH_U8, SWI_ROWS_U8, USED)
}

// Swi i is active.
#[tactic(auto, unfolding(basics::specs::Lists::count))]
pub fn is_active(lines: &Lines, i: u32) -> bool
    ensures { result ≡ is_active lines.now i }
{
    let n = lines::len(lines, ACTIVE_LINE);
    for k in 0..n {
        if lines::member(lines, ACTIVE_LINE, k) as u32 == i {
            return true;
        }
    }
    false
}

// A clock in use names Swi i.
pub fn is_named(clocks: &Clocks, i: u32) -> bool
    ensures { result ≡ is_named clocks.now i }
{
    for n in 0..CLOCK_ROWS {
        let k = rows::clock(clocks, n);
        if (k.used == 1) & (k.swi == i) {
            return true;
        }
    }
    false
}

// Swi i is posted, active or named by a clock.
pub fn is_held(swis: &Swis, lines: &Lines, clocks: &Clocks, i: u32) -> bool
    ensures { result ≡ (not (swi swis.now i POSTED == 0) || is_active lines.now i || is_named clocks.now i) }
{
    let posted = rows::swi(swis, i as usize, POSTED) != 0;
    posted | is_active(lines, i) | is_named(clocks, i)
}
