// The rules on an object and its line: semaphores, events, mailboxes, Swis, and the active Swis.
ghost use Rattle.std.specs.Prelude.{◌≡◌, ◌&&◌, suc, ◌+◌, ◌*◌, ◌-◌, eqb, ltb, length, get_or};
ghost use Rattle.basics.specs.Lists.{all_of};
ghost use Rattle.basics.specs.Rule.{holds, ◌is◌, ◌under◌, ◌and◌, ◌gives◌, each, every};
ghost use Rattle.rules.specs.Rows.{behind};
ghost use Rattle.rules.specs.Tables.{event_count, mailbox_count, mailbox_width, mailbox_most, task, swi, reading, writing, USED, PRIORITY};
ghost use Rattle.rules.specs.Lines.{line, active_line};
ghost use Rattle.rules.specs.Sound.{semaphore_rule, semaphores_rule, event_rule, events_rule, mailbox_rule, mailboxes_rule, swi_rule, swis_rule, active_rule};

use rules::numbers::{
    ACTIVE_LINE, BITS, CAPACITY, CAPACITY_END, COUNT, EVENT_LINES, EVENT_ROWS, INITIAL, KIND,
    KIND_COUNT, MAILBOX_LINES, MAILBOX_PLACES, MAILBOX_ROWS, MAILBOX_WIDTH, MESSAGES, POSTED,
    PRIORITY, READING, SEMAPHORE_ROWS, SWI_LEVELS, SWI_ROWS, TAKEN, TRIGGER, USED, WRITING,
};
use rules::{Events, Lines, Mailboxes, Semaphores, Swis, Tasks};

// ---- semaphores

// The count is what the kind allows, and 0 with waiters; one not in use is all 0 and has none.
#[tactic(auto, unfolding(rules::specs::Sound::semaphore_rule))]
fn semaphore_sound(semaphores: &Semaphores, lines: &Lines, s: usize) -> bool
    ensures { result ≡ holds (semaphore_rule semaphores.now lines.now s) }
{
    let used = rows::semaphore(semaphores, s, USED);
    let kind = rows::semaphore(semaphores, s, KIND);
    let count = rows::semaphore(semaphores, s, COUNT);
    let waiters = lines::len(lines, s);
    (used < 2)
        & ((used != 0) | ((kind == 0) & (count == 0) & (waiters == 0)))
        & (kind < KIND_COUNT)
        & (count <= rows::readings::most(kind))
        & ((waiters == 0) | (count == 0))
}

// The same of each semaphore.
pub fn semaphores_sound(semaphores: &Semaphores, lines: &Lines) -> bool
    ensures { result ≡ holds (semaphores_rule semaphores.now lines.now) }
{
    super::each(SEMAPHORE_ROWS, |s| semaphore_sound(semaphores, lines, s))
}

// ---- events

// At most one waits, and the posted bits do not satisfy it; one not in use is all 0 and has no
// waiter. False where there is no such event.
#[tactic(auto, unfolding(rules::specs::Sound::event_rule))]
fn event_sound(tasks: &Tasks, events: &Events, lines: &Lines, e: usize) -> bool
    ensures { result ≡ (ltb e event_count && holds (event_rule tasks.now events.now lines.now e)) }
{
    if e < EVENT_ROWS {
        let used = rows::event(events, e, USED);
        let bits = rows::event(events, e, BITS);
        let waiters = lines::len(lines, EVENT_LINES + e);
        let waiter = rows::task(tasks, basics::wide(lines::first(lines, EVENT_LINES + e)));
        let met = rows::readings::matched(bits, waiter.held, waiter.mask);
        return (used < 2)
            & ((used != 0) | ((bits == 0) & (waiters == 0)))
            & (waiters < 2)
            & ((waiters == 0) | (met == 0));
    }
    false
}

// The same of each event.
pub fn events_sound(tasks: &Tasks, events: &Events, lines: &Lines) -> bool
    ensures { result ≡ holds (events_rule tasks.now events.now lines.now) }
{
    super::each(EVENT_ROWS, |e| event_sound(tasks, events, lines, e))
}

// ---- mailboxes

// Zeros stand behind mailbox m's messages, up to its 8 places. False where there is no such
// mailbox. Stays beside that of the lines: what both do is `each_from`.
fn zeros_behind(mailboxes: &Mailboxes, m: usize) -> bool
    ensures { result ≡ (ltb m mailbox_count && all_of (λ x. eqb x 0) (behind mailbox_most mailboxes.now (m * mailbox_width + 1))) }
{
    if m < MAILBOX_ROWS {
        let at = m * MAILBOX_WIDTH + MESSAGES;
        let n = basics::least(basics::index(mailboxes[at]), MAILBOX_PLACES);
        return super::each_from(n, MAILBOX_PLACES, |k| mailboxes[at + 1 + k] == 0);
    }
    false
}

// Readers wait only at an empty mailbox, writers only at a full one.
fn waiter_sound(mode: u32, messages: u32, capacity: u32) -> bool
    ensures { result ≡ holds ((mode is reading gives messages is 0) and (mode is writing gives messages is capacity)) }
{
    ((mode != READING) | (messages == 0)) & ((mode != WRITING) | (messages == capacity))
}

// The same of all who stand in line j, that of a mailbox with so many messages and this capacity.
fn waiters_sound(tasks: &Tasks, lines: &Lines, j: usize, messages: u32, capacity: u32) -> bool
    ensures { result
        ≡ holds
        (every (line lines.now j)
        (λ x. ((task tasks.now x).mode is reading gives messages is 0) and ((task tasks.now x).mode is writing gives messages is capacity))) }
{
    super::each_in(lines, j, |x| {
        waiter_sound(rows::task(tasks, x).mode, messages, capacity)
    })
}

// No more messages than the capacity, at most 8, and zeros behind them; one not in use has no
// waiter. False where there is no such mailbox.
#[tactic(auto, unfolding(rules::specs::Sound::mailbox_rule))]
fn mailbox_sound(tasks: &Tasks, mailboxes: &Mailboxes, lines: &Lines, m: usize) -> bool
    ensures { result ≡ (ltb m mailbox_count && holds (mailbox_rule tasks.now mailboxes.now lines.now m)) }
{
    if m < MAILBOX_ROWS {
        let capacity = rows::mailbox(mailboxes, m, CAPACITY);
        let messages = rows::mailbox(mailboxes, m, MESSAGES);
        let waiters = lines::len(lines, MAILBOX_LINES + m);
        return (capacity < CAPACITY_END)
            & (messages <= capacity)
            & zeros_behind(mailboxes, m)
            & ((capacity != 0) | (waiters == 0))
            & waiters_sound(tasks, lines, MAILBOX_LINES + m, messages, capacity);
    }
    false
}

// The same of each mailbox.
pub fn mailboxes_sound(tasks: &Tasks, mailboxes: &Mailboxes, lines: &Lines) -> bool
    ensures { result ≡ holds (mailboxes_rule tasks.now mailboxes.now lines.now) }
{
    super::each(MAILBOX_ROWS, |m| mailbox_sound(tasks, mailboxes, lines, m))
}

// ---- Swis

// Priority 0 to 15; one not in use is all 0, and the taken trigger of one not active is 0.
#[tactic(auto, unfolding(rules::specs::Sound::swi_rule))]
fn swi_sound(swis: &Swis, lines: &Lines, i: usize) -> bool
    ensures { result ≡ holds (swi_rule swis.now lines.now i) }
{
    let used = rows::swi(swis, i, USED);
    let priority = rows::swi(swis, i, PRIORITY);
    let initial = rows::swi(swis, i, INITIAL);
    let trigger = rows::swi(swis, i, TRIGGER);
    let posted = rows::swi(swis, i, POSTED);
    let taken = rows::swi(swis, i, TAKEN);
    let active = super::standing::times(lines, ACTIVE_LINE, i);
    (used < 2)
        & ((used != 0) | ((priority == 0) & (initial == 0) & (trigger == 0) & (posted == 0)))
        & (priority < SWI_LEVELS)
        & (posted < 2)
        & ((active != 0) | (taken == 0))
}

// The same of each Swi.
pub fn swis_sound(swis: &Swis, lines: &Lines) -> bool
    ensures { result ≡ holds (swis_rule swis.now lines.now) }
{
    super::each(SWI_ROWS, |i| swi_sound(swis, lines, i))
}

// ---- active Swis

// Each is in use.
fn active_used(swis: &Swis, lines: &Lines) -> bool
    ensures { result ≡ holds (every (line lines.now active_line) (λ x. swi swis.now x USED is 1)) }
{
    super::each_in(lines, ACTIVE_LINE, |x| rows::swi(swis, x, USED) == 1)
}

// The priority of the active Swi behind k others.
fn active_priority(swis: &Swis, lines: &Lines, k: usize) -> u32
    ensures { result ≡ swi swis.now (get_or (line lines.now active_line) k 0) PRIORITY }
{
    let x = basics::wide(lines::member(lines, ACTIVE_LINE, k));
    rows::swi(swis, x, PRIORITY)
}

// Each has a lower priority than the next.
fn active_rise(swis: &Swis, lines: &Lines) -> bool
    ensures { result
        ≡ holds
        (each (length (line lines.now active_line) - 1)
        (λ k. swi swis.now (get_or (line lines.now active_line) k 0) PRIORITY under swi swis.now
        (get_or (line lines.now active_line) (suc k) 0) PRIORITY)) }
{
    let n = basics::one_less(lines::len(lines, ACTIVE_LINE));
    super::each(n, |k| {
        active_priority(swis, lines, k) < active_priority(swis, lines, k + 1)
    })
}

// Active Swis are in use and rise strictly in priority.
pub fn active_sound(swis: &Swis, lines: &Lines) -> bool
    ensures { result ≡ holds (active_rule swis.now lines.now) }
{
    active_used(swis, lines) & active_rise(swis, lines)
}
