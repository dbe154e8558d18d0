// One clock's own step at a tick, and a clock with other ticks left.
ghost use Rattle.std.specs.Prelude.{◌≡◌};
ghost use Rattle.rules.specs.Clocks.{with_left};
ghost use Rattle.rules.specs.Tick.{aged};

use rules::{AgedClock, Clock};

// The clock with n ticks left; with none it is stopped.
pub fn with_left(k: Clock, n: u32) -> Clock
    ensures { result ≡ with_left k n }
{
    Clock { left: n, ..k }
}

// One tick less; at 0 its Swi is posted, and it has its period again or stops if that is 0.
#[tactic(auto, unfolding(rules::specs::Tick::aged))]
pub fn aged(k: Clock) -> AgedClock
    ensures { result ≡ aged k }
{
    match k.left {
        0 => AgedClock {
            clock: k,
            fired: false,
        },
        1 => AgedClock {
            clock: with_left(k, k.period),
            fired: true,
        },
        left => AgedClock {
            clock: with_left(k, left - 1),
            fired: false,
        },
    }
}

// The same on a record that is lent: it is aged in place. True: its Swi is posted.
pub fn age(k: &mut Clock) -> bool
    ensures { (k.new ≡ (aged k.old).clock) × (result ≡ (aged k.old).fired) }
{
    let older = aged(*k);
    *k = older.clock;
    older.fired
}

// A caller that has the record by value lends it here, so that no other function makes a reference to a record.
pub fn age_one(k: Clock) -> AgedClock
    ensures { result ≡ aged k }
{
    let mut one = k;
    let fired = age(&mut one);
    AgedClock { clock: one, fired }
}
