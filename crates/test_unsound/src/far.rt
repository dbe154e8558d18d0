// Changes to numbers far out of range.
use super::calls::begin;
use super::changes::Row;
use rules::Tables;
use rules::numbers::{
    ACTIVE_LINE, CAPACITY, CLOCK_SWI, COUNT, CURRENT, DEPTH, EVENT_LINES, KIND, LEVELS,
    MAILBOX_LINES, MESSAGES, MODE, OBJECT, OUTCOME, POSTED, POSTED_LINES, PRIORITY, READY_LINES,
    SEMAPHORE_LINES, SWIS, TASK_PRIORITY, TASKS, USED,
};

// The last number that a word holds, and the last that a byte holds.
const LAST: u32 = u32::MAX;

const LAST_BYTE: u32 = u8::MAX as u32;

// Each number out of range by far, one after the other.
pub(crate) fn break_all(rt: &HostRuntime, t: Tables) {
    words(rt, t);
    lines(rt, t);
}

// "All numbers are in this page's ranges": the last number that a word holds, or a unit of the heap.
fn words(rt: &HostRuntime, t: Tables) {
    let mut trials = begin(rt, b"words far out of range", t);
    let of_state = [DEPTH, SWIS, TASKS, CURRENT, LEVELS];
    trials.row(Row::State, &of_state, &[LAST]);
    trials.row(Row::Task(1), &[MODE, TASK_PRIORITY], &[LAST]);
    trials.tasks(&[3, 4, 5, 6], OBJECT, LAST);
    trials.tasks(&[7], OUTCOME, LAST);
    trials.row(Row::Semaphore(1), &[USED, KIND], &[LAST]);
    trials.row(Row::Semaphore(2), &[COUNT], &[LAST]);
    trials.row(Row::Event(1), &[USED], &[LAST]);
    trials.row(Row::Mailbox(2), &[CAPACITY, MESSAGES], &[LAST]);
    trials.row(Row::Swi(3), &[USED, POSTED], &[LAST]);
    trials.row(Row::Swi(1), &[PRIORITY], &[LAST]);
    trials.row(Row::Swi(2), &[PRIORITY], &[LAST]);
    trials.row(Row::Clock(1), &[USED, CLOCK_SWI], &[LAST]);
    trials.row(Row::Clock(0), &[CLOCK_SWI], &[LAST]);
    trials.row(Row::Units, &[3], &[LAST_BYTE]);
}

// The last number that a byte holds: as a line's length, and as one who stands there, of each kind of line.
fn lines(rt: &HostRuntime, t: Tables) {
    let mut trials = begin(rt, b"lines far out of range", t);
    trials.row(Row::Line(SEMAPHORE_LINES), &[0, 1], &[LAST_BYTE]);
    trials.row(Row::Line(MAILBOX_LINES), &[0, 1], &[LAST_BYTE]);
    trials.row(Row::Line(EVENT_LINES), &[0, 1], &[LAST_BYTE]);
    trials.row(Row::Line(POSTED_LINES + 6), &[0, 1], &[LAST_BYTE]);
    trials.row(Row::Line(ACTIVE_LINE), &[0, 1, 2], &[LAST_BYTE]);
    trials.row(Row::Line(READY_LINES + 5), &[0, 1], &[LAST_BYTE]);
    trials.row(Row::Line(READY_LINES), &[1], &[LAST_BYTE]);
}
