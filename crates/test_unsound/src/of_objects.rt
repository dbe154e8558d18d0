// Changes that break the rules of objects.
use super::calls::begin;
use super::changes::Row;
use rules::Tables;
use rules::numbers::{
    BITS, CAPACITY, CAPACITY_END, CLOCK_FIRST, CLOCK_LEFT, CLOCK_SWI, COUNT, COUNT_MOST,
    ENTRY_COUNT, EVENT_LINES, INITIAL, KIND, KIND_COUNT, LATER_IN, MAILBOX_LINES, MASK, MESSAGES,
    OLDEST, PERIOD, POSTED, PRIORITY, SEMAPHORE_LINES, SWI_COUNT, SWI_LEVELS, TAKEN, TRIGGER, USED,
};

// The rules of objects, broken one after the other.
pub(crate) fn break_all(rt: &HostRuntime, t: Tables) {
    swis(rt, t);
    semaphores(rt, t);
    events(rt, t);
    mailboxes(rt, t);
    clocks(rt, t);
    units(rt, t);
}

// "priority 0 to 15"; "fields without meaning at the time (.., the taken trigger of a Swi not active)"
fn swis(rt: &HostRuntime, t: Tables) {
    let mut trials = begin(rt, b"unsound Swis", t);
    trials.row(Row::Swi(3), &[USED, POSTED], &[2]);
    // not in use: every word behind the first
    let behind = [PRIORITY, INITIAL, TRIGGER, POSTED, TAKEN];
    trials.row(Row::Swi(4), &behind, &[1]);
    trials.row(Row::Swi(3), &[PRIORITY], &[SWI_LEVELS]);
    trials.row(Row::Swi(3), &[TAKEN], &[1]);
}

// "A semaphore with waiters has count 0, a binary one at most 1."; "count to 65,535 or 1"
fn semaphores(rt: &HostRuntime, t: Tables) {
    let mut trials = begin(rt, b"unsound semaphores", t);
    trials.row(Row::Semaphore(0), &[USED], &[2]);
    // not in use: with a kind, a count, a waiter
    trials.row(Row::Semaphore(3), &[KIND, COUNT], &[1]);
    trials.joined(SEMAPHORE_LINES + 3, &[3]);
    trials.row(Row::Semaphore(1), &[KIND], &[KIND_COUNT]);
    trials.row(Row::Semaphore(2), &[COUNT], &[COUNT_MOST + 1]);
    // binary, of kind 1 and of kind 3
    trials.row(Row::Semaphore(1), &[COUNT], &[2]);
    trials.row(Row::Semaphore(2), &[KIND], &[3]);
    trials.row(Row::Semaphore(0), &[COUNT], &[1]);
}

// "the one waiter of an event"; "An event's waiter is not satisfied by its posted bits."
fn events(rt: &HostRuntime, t: Tables) {
    let mut trials = begin(rt, b"unsound events", t);
    trials.row(Row::Event(0), &[USED], &[2]);
    // not in use: with bits, a waiter
    trials.row(Row::Event(2), &[BITS], &[1]);
    trials.joined(EVENT_LINES + 2, &[4]);
    trials.joined(EVENT_LINES, &[3]);
    // the whole and-mask, and a bit of the or-mask
    trials.row(Row::Event(0), &[BITS], &[3]);
    trials.row(Row::Task(4), &[MASK], &[1]);
}

// "mailboxes of 1 to 8 messages"; "Readers wait only at an empty mailbox, writers only at a full one."
fn mailboxes(rt: &HostRuntime, t: Tables) {
    let mut trials = begin(rt, b"unsound mailboxes", t);
    trials.row(Row::Mailbox(2), &[CAPACITY], &[CAPACITY_END]);
    trials.row(Row::Mailbox(2), &[MESSAGES], &[4]);
    // words past the messages there, of a mailbox in use and of one not in use
    trials.row(Row::Mailbox(2), &[OLDEST + 1], &[6]);
    trials.row(Row::Mailbox(3), &[OLDEST], &[6]);
    // not in use: with a message, a waiter
    trials.row(Row::Mailbox(3), &[MESSAGES], &[1]);
    trials.joined(MAILBOX_LINES + 3, &[5]);
    // a message for a reader, and room for a writer
    trials.row(Row::Mailbox(0), &[MESSAGES], &[1]);
    trials.row(Row::Mailbox(1), &[CAPACITY], &[2]);
}

// "Records not in use are all 0"; "a clock names a Swi in use"; "first ticks from 1"
fn clocks(rt: &HostRuntime, t: Tables) {
    let mut trials = begin(rt, b"unsound clocks", t);
    trials.row(Row::Clock(0), &[USED], &[2]);
    // clock 2 is not in use
    trials.row(Row::Clock(2), &[CLOCK_SWI], &[3]);
    let ticks = [CLOCK_FIRST, PERIOD, CLOCK_LEFT];
    trials.row(Row::Clock(2), &ticks, &[1]);
    // a Swi that is not in use, and a number that is no Swi's, of a running clock and of a stopped one
    trials.row(Row::Clock(0), &[CLOCK_SWI], &[4]);
    trials.row(Row::Clock(1), &[CLOCK_SWI], &[SWI_COUNT]);
    trials.row(Row::Clock(0), &[CLOCK_FIRST], &[0]);
}

// "A heap entry is free, first of a block or later in one; a later one never stands first or after a free one."
fn units(rt: &HostRuntime, t: Tables) {
    let mut trials = begin(rt, b"unsound heap", t);
    trials.row(Row::Units, &[5], &[u32::from(ENTRY_COUNT)]);
    trials.row(Row::Units, &[0, 4], &[u32::from(LATER_IN)]);
}
