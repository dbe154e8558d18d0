// Changes that break the rules of lines, and the dispatch rule.
use super::calls::begin;
use super::changes::{Row, with_row};
use super::sets::held;
use rules::Tables;
use rules::numbers::{
    ACTIVE_LINE, EVENT_LINES, LINE_END, LINE_MOST, MAILBOX_LINES, OBJECT, POSTED, POSTED_LINES,
    PRIORITY, READY_LINES, SEMAPHORE_LINES, SWI_COUNT, TASK_COUNT, TASKS, USED,
};

// The rules of lines and of dispatch, broken one after the other.
pub(crate) fn break_all(rt: &HostRuntime, t: Tables) {
    lines(rt, t);
    strangers(rt, t);
    once(rt, t);
    actives(rt, t);
    due(rt, t);
    overtaken(rt, held());
}

// Lines: room for 32, and zeros behind those who stand there
fn lines(rt: &HostRuntime, t: Tables) {
    let mut trials = begin(rt, b"unsound lines", t);
    trials.row(Row::Line(READY_LINES + 5), &[0], &[u32::from(LINE_END)]);
    trials.row(Row::Line(READY_LINES + 5), &[2], &[3]);
    trials.row(Row::Line(SEMAPHORE_LINES + 9), &[LINE_MOST], &[3]);
}

// "Nothing else stands in a queue or line or is an event's waiter."
fn strangers(rt: &HostRuntime, t: Tables) {
    let mut trials = begin(rt, b"unsound members of lines", t);
    // a number that is no task's
    trials.joined(READY_LINES + 5, &[TASK_COUNT]);
    // in the queue of 4: task 9, ready at 3; asleep, terminated
    trials.joined(READY_LINES + 4, &[9, 2, 7]);
    // not in use, inactive
    trials.joined(READY_LINES, &[10, 8]);
    // a ready task in a semaphore's line; and waiters at objects where they do not wait
    trials.joined(SEMAPHORE_LINES + 1, &[1, 3]);
    trials.joined(EVENT_LINES + 1, &[4]);
    trials.joined(MAILBOX_LINES + 2, &[5, 6]);
    // among the posted Swis: one that is not, a number that is no Swi's, and Swi 2, of priority 6, at 2
    trials.joined(POSTED_LINES + 6, &[3, SWI_COUNT]);
    trials.joined(POSTED_LINES + 2, &[2]);
    // ready tasks in a queue above the levels
    trials.joined(READY_LINES + 16, &[9]);
    trials.joined(READY_LINES + 31, &[1]);
}

// "Each ready task stands once, in its priority's queue. Each blocked task .. stands once in one semaphore's or mailbox's line, or is the
// one waiter of an event."
fn once(rt: &HostRuntime, t: Tables) {
    let mut trials = begin(rt, b"not once in line", t);
    // not in its line
    trials.emptied(&[READY_LINES + 3, SEMAPHORE_LINES, EVENT_LINES]);
    trials.emptied(&[MAILBOX_LINES, MAILBOX_LINES + 1]);
    trials.row(Row::Task(3), &[OBJECT], &[1]);
    // twice
    trials.joined(READY_LINES + 5, &[1]);
    trials.joined(SEMAPHORE_LINES, &[3]);
    // "Posted Swis stand once in their priority's queue"
    trials.emptied(&[POSTED_LINES + 6]);
    trials.joined(POSTED_LINES + 6, &[2]);
    trials.row(Row::Swi(3), &[POSTED], &[1]);
}

// "active Swis are in use and rise strictly in priority"
fn actives(rt: &HostRuntime, t: Tables) {
    let mut trials = begin(rt, b"unsound active Swis", t);
    trials.row(Row::Swi(0), &[USED], &[0]);
    trials.joined(ACTIVE_LINE, &[SWI_COUNT]);
    // equal, falling, twice
    trials.row(Row::Swi(0), &[PRIORITY], &[6]);
    trials.interrupt_in(with_row(t, Row::Line(ACTIVE_LINE), &[2, 1, 0]));
    trials.row(Row::Line(ACTIVE_LINE), &[2], &[0]);
}

// "the dispatch rule has nothing left to do"
fn due(rt: &HostRuntime, t: Tables) {
    let mut trials = begin(rt, b"a Swi is due", t);
    // Swi 2, posted at 6, is above the top active one; or none is active
    trials.row(Row::Swi(1), &[PRIORITY], &[5]);
    trials.emptied(&[ACTIVE_LINE]);
}

// With tasks on, the current task is the front of the highest queue
fn overtaken(rt: &HostRuntime, t: Tables) {
    let mut trials = begin(rt, b"a task is due", t);
    trials.row(Row::State, &[TASKS], &[1]);
}
