// What a call that may wait looks at.
ghost use Rattle.std.specs.Prelude.{◌≡◌};
ghost use Rattle.rules.specs.Waits.{outside, switch_off, idle, ticks_for};
ghost use Rattle.rules.specs.Refusals.{code_said};
ghost use Rattle.moves.specs.Begins.{wait_code};

use rules::numbers::{FOREVER, SWIS, T, TASKS};
use rules::{Refusal, State};

// A limit other than 0 outside a task. Who calls stays a number: `outside` of rules/specs answers any.
#[tactic(auto, unfolding(rules::specs::Waits::outside))]
pub fn outside(x: u32, limit: u32) -> bool
    ensures { result ≡ outside x limit }
{
    (x != T) & (limit != 0)
}

// Either switch is off.
#[tactic(auto, unfolding(rules::specs::Waits::switch_off))]
pub fn switch_off(state: &State) -> bool
    ensures { result ≡ switch_off state.now }
{
    (state[SWIS] == 0) | (state[TASKS] == 0)
}

// The current task is task 0.
#[tactic(auto, unfolding(rules::specs::Waits::idle))]
pub fn idle(state: &State) -> bool
    ensures { result ≡ idle state.now }
{
    rows::readings::current(state) == 0
}

// What forbids a wait, where one would begin: task 0, then either switch that is off.
pub fn wait_code(state: &State, begins: bool) -> Result<(), Refusal>
    ensures { code_said result ≡ wait_code begins state.now }
{
    if begins & idle(state) {
        return Err(Refusal::Forbidden);
    }
    if begins & switch_off(state) {
        return Err(Refusal::SwitchedOff);
    }
    Ok(())
}

// The ticks that a limit leaves: 0 for one without end.
#[tactic(auto, unfolding(rules::specs::Waits::ticks_for))]
pub fn ticks_for(limit: u32) -> u32
    ensures { result ≡ ticks_for limit }
{
    if limit == FOREVER {
        return 0;
    }
    limit
}
