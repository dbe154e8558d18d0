// Calls 50 to 53. Of each: why it is refused, if it is; its effect where it is not; and the call.
ghost use Rattle.std.specs.Prelude.{◌≡◌};
ghost use Rattle.rules.specs.Answer.{with_answer, answered, code_of, ◌by◌};
ghost use Rattle.rules.specs.Clocks.{create_cases, create_effect, delete_cases, delete_effect, start_stop_cases, start_effect, stop_effect, create_call, delete_call};
ghost use Rattle.rules.specs.Clocks.{start_call, stop_call};
ghost use Rattle.rules.specs.Refusals.{answer_said, code_said};

use super::ageing::with_left;
use super::table::free_clock;
use answers::{absent, accepted, unused};
use rows::{clock, set_clock, swi};
use rules::numbers::{CLOCK_COUNT, CLOCK_ROWS, DONE, SWI_COUNT, T, USED};
use rules::{Answer, Call, Clock, Clocks, Refusal, Swis};

// ---- 50 create (Swi, first ticks, period)

#[tactic(auto, unfolding(rules::specs::Answer::first_given, rules::specs::Answer::absent_code, rules::specs::Clocks::create_cases))]
pub fn create_code(clocks: &Clocks, swis: &Swis, x: u32, q: Call) -> Result<(), Refusal>
    ensures { code_said result ≡ code_of (create_cases clocks.now swis.now x q.a q.b q.d) }
{
    if x != T {
        return Err(Refusal::WrongContext);
    }
    if swi(swis, q.a as usize, USED) == 0 {
        return Err(absent(q.a, SWI_COUNT));
    }
    if (q.b == 0) | unused(0, 0, 0, q.d) {
        return Err(Refusal::BadArgument);
    }
    if free_clock(clocks) == CLOCK_ROWS {
        return Err(Refusal::NoneFree);
    }
    Ok(())
}

// A new clock is stopped.
#[tactic(auto, unfolding(rules::specs::Clocks::create_effect))]
pub fn create_effect(clocks: &mut Clocks, a: u32, b: u32, c: u32) -> Answer
    ensures { with_answer result clocks.new ≡ create_effect clocks.old a b c }
{
    let n = free_clock(clocks);
    let k = Clock {
        used: 1,
        swi: a,
        first: b,
        period: c,
        left: 0,
    };
    set_clock(clocks, n, k);
    accepted(DONE, n as u32)
}

pub fn create(clocks: &mut Clocks, swis: &Swis, x: u32, q: Call) -> Result<Answer, Refusal>
    ensures leaves { with_answer (answer_said result) clocks.new ≡ answered clocks.old (create_call clocks.old swis.now x by q) }
    ensures tells { code_said result ≡ code_of (create_call clocks.old swis.now x by q).cases }
{
    create_code(clocks, swis, x, q)?;
    Ok(create_effect(clocks, q.a, q.b, q.c))
}

// ---- 51 delete

#[tactic(auto, unfolding(rules::specs::Answer::first_given, rules::specs::Answer::absent_code, rules::specs::Clocks::delete_cases))]
pub fn delete_code(clocks: &Clocks, x: u32, q: Call) -> Result<(), Refusal>
    ensures { code_said result ≡ code_of (delete_cases clocks.now x by q) }
{
    if x != T {
        return Err(Refusal::WrongContext);
    }
    if clock(clocks, q.a as usize).used == 0 {
        return Err(absent(q.a, CLOCK_COUNT));
    }
    if unused(0, q.b, q.c, q.d) {
        return Err(Refusal::BadArgument);
    }
    Ok(())
}

#[tactic(auto, unfolding(rules::specs::Clocks::delete_effect))]
pub fn delete_effect(clocks: &mut Clocks, a: u32) -> Answer
    ensures { with_answer result clocks.new ≡ delete_effect clocks.old a }
{
    let none = Clock {
        used: 0,
        swi: 0,
        first: 0,
        period: 0,
        left: 0,
    };
    set_clock(clocks, a as usize, none);
    accepted(DONE, 0)
}

pub fn delete(clocks: &mut Clocks, x: u32, q: Call) -> Result<Answer, Refusal>
    ensures leaves { with_answer (answer_said result) clocks.new ≡ answered clocks.old (delete_call clocks.old x by q) }
    ensures tells { code_said result ≡ code_of (delete_call clocks.old x by q).cases }
{
    delete_code(clocks, x, q)?;
    Ok(delete_effect(clocks, q.a))
}

// ---- 52 start, 53 stop

#[tactic(auto, unfolding(rules::specs::Answer::first_given, rules::specs::Answer::absent_code, rules::specs::Clocks::start_stop_cases))]
pub fn start_stop_code(clocks: &Clocks, q: Call) -> Result<(), Refusal>
    ensures { code_said result ≡ code_of (start_stop_cases clocks.now by q) }
{
    if clock(clocks, q.a as usize).used == 0 {
        return Err(absent(q.a, CLOCK_COUNT));
    }
    if unused(0, q.b, q.c, q.d) {
        return Err(Refusal::BadArgument);
    }
    Ok(())
}

// Start sets the first ticks again.
#[tactic(auto, unfolding(rules::specs::Clocks::start_effect))]
pub fn start_effect(clocks: &mut Clocks, a: u32) -> Answer
    ensures { with_answer result clocks.new ≡ start_effect clocks.old a }
{
    let k = clock(clocks, a as usize);
    let started = with_left(k, k.first);
    set_clock(clocks, a as usize, started);
    accepted(DONE, 0)
}

pub fn start(clocks: &mut Clocks, q: Call) -> Result<Answer, Refusal>
    ensures leaves { with_answer (answer_said result) clocks.new ≡ answered clocks.old (start_call clocks.old by q) }
    ensures tells { code_said result ≡ code_of (start_call clocks.old by q).cases }
{
    start_stop_code(clocks, q)?;
    Ok(start_effect(clocks, q.a))
}

// A stopped clock has no ticks left.
#[tactic(auto, unfolding(rules::specs::Clocks::stop_effect))]
pub fn stop_effect(clocks: &mut Clocks, a: u32) -> Answer
    ensures { with_answer result clocks.new ≡ stop_effect clocks.old a }
{
    let k = clock(clocks, a as usize);
    let stopped = with_left(k, 0);
    set_clock(clocks, a as usize, stopped);
    accepted(DONE, 0)
}

pub fn stop(clocks: &mut Clocks, q: Call) -> Result<Answer, Refusal>
    ensures leaves { with_answer (answer_said result) clocks.new ≡ answered clocks.old (stop_call clocks.old by q) }
    ensures tells { code_said result ≡ code_of (stop_call clocks.old by q).cases }
{
    start_stop_code(clocks, q)?;
    Ok(stop_effect(clocks, q.a))
}
