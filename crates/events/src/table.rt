// An event's row, and the first row that is free.
ghost use Rattle.std.specs.Prelude.{◌≡◌, [], ◌∷◌, ◌≤◌};
ghost use Rattle.rules.specs.Tables.{event_row};
ghost use Rattle.rules.specs.Events.{free_event};

use rules::Events;
use rules::numbers::{EVENT_ROWS_U8, EVENT_WIDTH_U8, USED};

// The lowest free number; 8 where there is none. Stays a number, and no Option: `free_event` of rules/specs is that number.
#[tactic(auto, unfolding(rules::specs::Events::free_event))]
pub fn free_event(events: &Events) -> usize
    ensures { (result ≡ free_event events.now) × (result ≤ 8) }
{
    rows::first_zero(events, EVENT_WIDTH_U8, EVENT_ROWS_U8, USED)
}

// Row i has these words.
pub fn put_event(events: &mut Events, i: usize, used: u32, bits: u32)
    ensures { events.new ≡ event_row events.old i (used ∷ bits ∷ []) }
{
    rows::put_row(events, EVENT_WIDTH_U8, EVENT_ROWS_U8, i, &[used, bits])
}
