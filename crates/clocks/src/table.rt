// The first clock that is free.
ghost use Rattle.std.specs.Prelude.{◌≡◌, ◌≤◌};
ghost use Rattle.rules.specs.Clocks.{free_clock};

use rules::Clocks;
use rules::numbers::{CLOCK_ROWS_U8, CLOCK_WIDTH_U8, USED};

// The lowest free number; 16 where there is none. Stays a number, and no Option: `free_clock` of rules/specs is that number.
#[tactic(auto, unfolding(rules::specs::Clocks::free_clock, rules::specs::Tables::clock))]
pub fn free_clock(clocks: &Clocks) -> usize
    ensures { (result ≡ free_clock clocks.now) × (result ≤ 16) }
{
    rows::first_zero(clocks, CLOCK_WIDTH_U8, CLOCK_ROWS_U8, USED)
}
