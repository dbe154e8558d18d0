// All nine tables at once: that their arrays have their types' lengths; and fresh ones.
#![tactic(auto)]

ghost use Rattle.rules.specs.Tables.{Typed};
ghost use Rattle.std.specs.Prelude.{◌≡◌};
ghost use Rattle.rules.specs.Fresh.{fresh_with};

use rules::Tables;
use rules::numbers::{
    CLOCK_WORDS, EVENT_WORDS, HEAP_UNITS, LEVELS, LINE_BYTES, MAILBOX_WORDS, MODE, READY,
    READY_LINES_AT, SEMAPHORE_WORDS, STATE_WIDTH, SWI_WORDS, TASK_WORDS,
};

// The arrays have their types' lengths. A reference to an array does not tell a proof so, an array by value does; nothing is done, and nothing is
// left of a call of it in a compiled program.
pub fn typed(t: Tables)
    ensures { Typed t }
{}

// Fresh tables of so many levels: task 0 only, both switches on, depth 0, tick 0, heap free. The number is not tested here: `entries::fresh` does.
#[tactic(auto, unfolding(rules::specs::Fresh::fresh_with))]
pub fn fresh(levels: u32) -> Tables
    ensures { result ≡ fresh_with levels }
{
    let mut tasks = [0u32; TASK_WORDS];
    tasks[MODE] = READY;
    let mut lines = [0u8; LINE_BYTES];
    lines[READY_LINES_AT] = 1;
    let mut state = [0u32; STATE_WIDTH];
    state[rules::numbers::SWIS] = 1;
    state[rules::numbers::TASKS] = 1;
    state[LEVELS] = levels;
    Tables {
        tasks,
        lines,
        semaphores: [0u32; SEMAPHORE_WORDS],
        events: [0u32; EVENT_WORDS],
        mailboxes: [0u32; MAILBOX_WORDS],
        swis: [0u32; SWI_WORDS],
        clocks: [0u32; CLOCK_WORDS],
        heap: [0u8; HEAP_UNITS],
        state,
    }
}
