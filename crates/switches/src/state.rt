// Calls 74, 75, 77 and 78: they change the state alone.
ghost use Rattle.std.specs.Prelude.{◌≡◌};
ghost use Rattle.rules.specs.Answer.{with_answer, answered, code_of, ◌by◌};
ghost use Rattle.rules.specs.Switches.{setting, settings, turned, may_not_name, bad_which, bad_key, off_cases, restore_cases, in_cases, interrupt_cases, off_call};
ghost use Rattle.rules.specs.Switches.{restore_call, in_call, out_call};
ghost use Rattle.rules.specs.Refusals.{answer_said, code_said};

use rules::numbers::{DEPTH, DONE, I, MOST_DEPTH, S, SWIS, TASKS};
use rules::{Answer, Call, Refusal, State};

// ---- the bits by which 77 and 78 name the switches

const SWIS_BIT: u32 = 1;

const TASKS_BIT: u32 = 2;

const BOTH_BITS: u32 = 3;

// A switch is on or off.
const ON: u32 = 1;

const OFF: u32 = 0;

// The settings of both switches, the bit of each that is on.
pub fn settings(state: &State) -> u32
    ensures { result ≡ settings state.now }
{
    setting(state[SWIS], SWIS_BIT) | setting(state[TASKS], TASKS_BIT)
}

fn setting(switch: u32, bit: u32) -> u32
    ensures { result ≡ setting switch bit }
{
    if switch == OFF {
        return 0;
    }
    bit
}

// The switches that these bits name are v now, the others as they were.
pub fn turn(state: &mut State, bits: u32, v: u32)
    ensures { state.new ≡ turned bits v state.old }
{
    // Stays a match: by a test of each bit every call is dearer (docs/PERFORMANCE.md).
    match bits & BOTH_BITS {
        SWIS_BIT => {
            state[SWIS] = v;
        }
        TASKS_BIT => {
            state[TASKS] = v;
        }
        BOTH_BITS => {
            state[SWIS] = v;
            state[TASKS] = v;
        }
        _ => {}
    }
}

// An interrupt may name none, and a Swi nothing but 1.
pub fn may_not_name(x: u32, which: u32) -> bool
    ensures { result ≡ may_not_name x which }
{
    (x == I) | ((x == S) & (which != SWIS_BIT))
}

// 0, or above 3.
pub fn bad_which(which: u32) -> bool
    ensures { result ≡ bad_which which }
{
    (which == 0) | (BOTH_BITS < which)
}

// The key has a bit that is not named.
pub fn bad_key(which: u32, key: u32) -> bool
    ensures { result ≡ bad_key which key }
{
    (which & key) != key
}

// ---- 77: switches off

#[tactic(auto, unfolding(rules::specs::Answer::first_given, rules::specs::Switches::off_cases))]
pub fn off_code(x: u32, q: Call) -> Result<(), Refusal>
    ensures { code_said result ≡ code_of (off_cases x by q) }
{
    if may_not_name(x, q.a) {
        return Err(Refusal::WrongContext);
    }
    if bad_which(q.a) | answers::unused(0, q.b, q.c, q.d) {
        return Err(Refusal::BadArgument);
    }
    Ok(())
}

// 77 off: the named ones' old settings.
#[tactic(auto, unfolding(rules::specs::Switches::off_effect))]
pub fn off(state: &mut State, x: u32, q: Call) -> Result<Answer, Refusal>
    ensures leaves { with_answer (answer_said result) state.new ≡ answered state.old (off_call state.old x by q) }
    ensures tells { code_said result ≡ code_of (off_call state.old x by q).cases }
{
    off_code(x, q)?;
    let which = q.a;
    let old = settings(state) & which;
    turn(state, which, OFF);
    Ok(answers::accepted(DONE, old))
}

// ---- 78: switches on

#[tactic(auto, unfolding(rules::specs::Answer::first_given, rules::specs::Switches::restore_cases))]
pub fn restore_code(x: u32, q: Call) -> Result<(), Refusal>
    ensures { code_said result ≡ code_of (restore_cases x by q) }
{
    let which = q.a;
    if may_not_name(x, which) {
        return Err(Refusal::WrongContext);
    }
    if bad_which(which) | bad_key(which, q.b) | answers::unused(0, 0, q.c, q.d) {
        return Err(Refusal::BadArgument);
    }
    Ok(())
}

// 78 restore: those of the named ones whose bit is in the key.
#[tactic(auto, unfolding(rules::specs::Switches::restore_effect))]
pub fn restore(state: &mut State, x: u32, q: Call) -> Result<Answer, Refusal>
    ensures leaves { with_answer (answer_said result) state.new ≡ answered state.old (restore_call state.old x by q) }
    ensures tells { code_said result ≡ code_of (restore_call state.old x by q).cases }
{
    restore_code(x, q)?;
    let which = q.a;
    let key = q.b;
    turn(state, which & key, ON);
    Ok(answers::accepted(DONE, 0))
}

// ---- 74 and 75: the interrupt

#[tactic(auto, unfolding(rules::specs::Answer::first_given, rules::specs::Switches::in_cases))]
pub fn in_code(state: &State, q: Call) -> Result<(), Refusal>
    ensures { code_said result ≡ code_of (in_cases state.now by q) }
{
    if answers::unused(q.a, q.b, q.c, q.d) {
        return Err(Refusal::BadArgument);
    }
    if MOST_DEPTH <= state[DEPTH] {
        return Err(Refusal::AtEnd);
    }
    Ok(())
}

// 74 interrupt in.
#[tactic(auto, unfolding(rules::specs::Switches::in_effect))]
pub fn interrupt_in(state: &mut State, q: Call) -> Result<Answer, Refusal>
    ensures leaves { with_answer (answer_said result) state.new ≡ answered state.old (in_call state.old by q) }
    ensures tells { code_said result ≡ code_of (in_call state.old by q).cases }
{
    in_code(state, q)?;
    let depth = state[DEPTH];
    if depth < MOST_DEPTH {
        state[DEPTH] = depth + 1;
    }
    Ok(answers::accepted(DONE, 0))
}

#[tactic(auto, unfolding(rules::specs::Answer::first_given, rules::specs::Switches::interrupt_cases))]
pub fn interrupt_code(x: u32, q: Call) -> Result<(), Refusal>
    ensures { code_said result ≡ code_of (interrupt_cases x by q) }
{
    if x != I {
        return Err(Refusal::WrongContext);
    }
    if answers::unused(q.a, q.b, q.c, q.d) {
        return Err(Refusal::BadArgument);
    }
    Ok(())
}

// 75 interrupt out.
#[tactic(auto, unfolding(rules::specs::Switches::out_effect))]
pub fn interrupt_out(state: &mut State, x: u32, q: Call) -> Result<Answer, Refusal>
    ensures leaves { with_answer (answer_said result) state.new ≡ answered state.old (out_call state.old x by q) }
    ensures tells { code_said result ≡ code_of (out_call state.old x by q).cases }
{
    interrupt_code(x, q)?;
    state[DEPTH] = rows::readings::one_less(state[DEPTH]);
    Ok(answers::accepted(DONE, 0))
}
