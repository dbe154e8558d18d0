// Dispatch after a call on sound tables: each part of the rule where it can have something to do.
#![tactic(auto)]

ghost use Rattle.std.specs.Prelude.{◌≡◌, cond};
ghost use Rattle.rules.specs.Dispatch.{swi_dispatched, task_dispatched, dispatch_tables};
ghost use Rattle.dispatch_after.specs.Settle.{tasks_only, both_parts, waits_or_wakes, mailbox_moves, left_by, settled_after};
ghost use Rattle.rules.specs.Swis.{swi_queues};

use rules::numbers::{DEPTH, NOT_MET, NOW_WAITING};
use rules::{Answer, Lines, State, Swis};

// Which parts of the dispatch rule can have something to do: the Swis', the tasks'.
// Stays two flags: each is asked for alone, and `parts_settled` of specs/ reads them so.
#[derive(Clone, Copy)]
struct Parts {
    swis: bool,
    tasks: bool,
}

// The tasks' part at most.
fn tasks_only(some: bool) -> Parts
    ensures { result ≡ tasks_only some }
{
    Parts {
        swis: false,
        tasks: some,
    }
}

// Both parts.
fn both_parts() -> Parts
    ensures { result ≡ both_parts }
{
    Parts {
        swis: true,
        tasks: true,
    }
}

// Whether a call at a semaphore or an event has begun a wait or, being the post with this number, woken
// a task: its value is who was woken.
fn waits_or_wakes(post: u32, number: u32, outcome: u32, value: u32) -> bool
    ensures { result ≡ waits_or_wakes post number outcome value }
{
    (outcome == NOW_WAITING) | ((number == post) & (value != 0))
}

// Whether a call at a mailbox can have moved a task: a post that waits or wakes somebody, or a pend that
// waits or may have let a writer in.
fn mailbox_moves(number: u32, outcome: u32, value: u32) -> bool
    ensures { result ≡ mailbox_moves number outcome value }
{
    if number == 0x42 {
        return (outcome == NOW_WAITING) | (value != 0);
    }
    (number == 0x43) & (outcome != NOT_MET)
}

// What an accepted call on sound tables can have left to do. Before it there was nothing; calls of
// Swis and switches apart no Swi moves, and the number and the answer tell where no task has.
#[tactic(auto, unfolding(crate::specs::Settle::left_by))]
fn left_by(number: u32, outcome: u32, value: u32) -> Parts
    ensures { result ≡ left_by number outcome value }
{
    match number {
        0x00..=0x0f => tasks_only((number != 0x01) & (number != 0x06)),
        0x10..=0x1f => both_parts(),
        0x20..=0x2f => tasks_only(waits_or_wakes(0x23, number, outcome, value)),
        0x30..=0x3f => tasks_only(waits_or_wakes(0x33, number, outcome, value)),
        0x40..=0x4f => tasks_only(mailbox_moves(number, outcome, value)),
        0x50..=0x6f => tasks_only(false),
        _ => both_parts(),
    }
}

// The Swis' part of dispatch, where one may be due. None is at depth above 0, as after each tick: there
// no search begins.
#[tactic(auto, unfolding(rules::specs::Dispatch::swi_dispatched, rules::specs::Dispatch::swi_due))]
fn settle_swis(some: bool, swis: &mut Swis, lines: &mut Lines, state: &State)
    ensures { swi_queues swis.new lines.new ≡ cond some (swi_dispatched state.now (swi_queues swis.old lines.old)) (swi_queues swis.old lines.old) }
{
    if some & (state[DEPTH] == 0) {
        dispatch::dispatch_swis(swis, lines, state);
    }
}

// The tasks' part of dispatch, where one may be due.
fn settle_tasks(some: bool, lines: &Lines, state: &mut State)
    ensures { state.new ≡ cond some (task_dispatched lines.now state.old) state.old }
{
    if some {
        dispatch::dispatch_tasks(lines, state);
    }
}

// Dispatch, after an accepted call only, as far as it can have something to do. Takes the answer as it leaves the call, whose code is document 01's number.
#[tactic(auto, unfolding(crate::specs::Settle::settled_after, crate::specs::Settle::parts_settled))]
pub fn settle(number: u32, answer: Answer, swis: &mut Swis, lines: &mut Lines, state: &mut State)
    ensures { dispatch_tables swis.new lines.new state.new ≡ settled_after number answer swis.old lines.old state.old }
{
    let code = answer.code;
    if code != 0 {
        return;
    }
    let left = left_by(number, answer.outcome, answer.value);
    settle_swis(left.swis, swis, lines, state);
    settle_tasks(left.tasks, lines, state);
}
