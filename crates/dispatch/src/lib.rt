// Who runs, and what is done after each accepted call.
#![tactic(auto)]

pub mod due;

ghost use Rattle.std.specs.Prelude.{◌≡◌};
ghost use Rattle.rules.specs.Dispatch.{context, running, started, swi_dispatched, task_dispatched};
ghost use Rattle.rules.specs.Swis.{swi_queues};

use rules::numbers::{
    ACTIVE_LINE, CURRENT, DEPTH, I, INITIAL, POSTED, POSTED_LINES, S, T, TAKEN, TRIGGER,
};
use rules::{Lines, State, Swis, Thread};

// The context of a call: 0 a task, 1 a Swi, 2 an interrupt.
// Stays a number: what it promises is the number `context` of rules/specs/Dispatch.
#[tactic(auto, unfolding(rules::specs::Dispatch::context))]
pub fn context(lines: &Lines, state: &State) -> u32
    ensures { result ≡ context lines.now state.now }
{
    if 0 < state[DEPTH] {
        return I;
    }
    if lines::anyone(lines, ACTIVE_LINE) {
        return S;
    }
    T
}

// The running thread.
#[tactic(auto, unfolding(rules::specs::Dispatch::running))]
pub fn running(lines: &Lines, state: &State) -> Thread
    ensures { result ≡ running lines.now state.now }
{
    if 0 < state[DEPTH] {
        return Thread::Interrupt;
    }
    if lines::anyone(lines, ACTIVE_LINE) {
        return Thread::Swi(u32::from(lines::top(lines)));
    }
    Thread::Task(u32::from(rows::readings::current(state)))
}

// Swi i, posted in line j, starts: its trigger is kept as taken and set back to its initial value.
#[tactic(auto, unfolding(rules::specs::Dispatch::started))]
pub fn start(swis: &mut Swis, lines: &mut Lines, i: u8, j: usize)
    ensures { swi_queues swis.new lines.new ≡ started i j (swi_queues swis.old lines.old) }
{
    let n = basics::wide(i);
    let trigger = rows::swi(swis, n, TRIGGER);
    let initial = rows::swi(swis, n, INITIAL);
    rows::set_swi(swis, n, TAKEN, trigger);
    rows::set_swi(swis, n, TRIGGER, initial);
    rows::set_swi(swis, n, POSTED, 0);
    lines::leave(lines, j, i);
    lines::join(lines, ACTIVE_LINE, i);
}

// The first Swi at the highest posted priority starts, if one is due. That is tested here and not by `due::swi_due`, so that the highest
// priority is searched for once.
#[tactic(auto, unfolding(rules::specs::Dispatch::swi_due, rules::specs::Dispatch::swi_dispatched))]
pub fn dispatch_swis(swis: &mut Swis, lines: &mut Lines, state: &State)
    ensures { swi_queues swis.new lines.new ≡ swi_dispatched state.now (swi_queues swis.old lines.old) }
{
    if state[DEPTH] != 0 {
        return;
    }
    if state[rules::numbers::SWIS] == 0 {
        return;
    }
    let level = due::highest_posted(lines);
    if due::active_level(swis, lines) < level {
        let j = POSTED_LINES + basics::one_less(level);
        let i = lines::first(lines, j);
        start(swis, lines, i, j);
    }
}

// The current task is the front of the highest ready queue, if tasks may be switched.
#[tactic(auto, unfolding(rules::specs::Dispatch::task_dispatched))]
pub fn dispatch_tasks(lines: &Lines, state: &mut State)
    ensures { state.new ≡ task_dispatched lines.now state.old }
{
    if due::task_due(lines, state) {
        state[CURRENT] = u32::from(due::front(lines, state));
    }
}
