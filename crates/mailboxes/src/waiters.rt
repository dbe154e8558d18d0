// Who waits at a mailbox, whether a post or a pend goes on to wait, and how such a wait begins.
ghost use Rattle.std.specs.Prelude.{◌≡◌, List, ℕ};
ghost use Rattle.rules.specs.Lines.{mailbox_line, anyone, front_of};
ghost use Rattle.rules.specs.Mailboxes.{waits_first, is_full, post_waits, pend_waits};
ghost use Rattle.rules.specs.Answer.{with_answer};
ghost use Rattle.rules.specs.Waits.{wait_tables};
ghost use Rattle.mailboxes.specs.Wait.{not_done};

use rules::numbers::{CAPACITY, MAILBOX_LINES, MESSAGES, NOT_MET, NOW_WAITING, READING};
use rules::{Answer, Lines, Mailboxes, State, Tasks};

// Someone waits at mailbox a.
pub fn anyone(lines: &Lines, a: u32) -> bool
    ensures { result ≡ anyone lines.now (mailbox_line a) }
{
    lines::anyone(lines, MAILBOX_LINES + a as usize)
}

// The first who waits at mailbox a; 0 where nobody does.
pub fn first(lines: &Lines, a: u32) -> u32
    ensures { result ≡ front_of lines.now (mailbox_line a) }
{
    u32::from(lines::first(lines, MAILBOX_LINES + a as usize))
}

// Someone waits at mailbox a, and the first is in this mode.
#[tactic(auto, unfolding(rules::specs::Mailboxes::waits_first))]
pub fn waits_first(tasks: &Tasks, lines: &Lines, a: u32, mode: u32) -> bool
    ensures { result ≡ waits_first tasks.now lines.now a mode }
{
    let k = rows::task(tasks, first(lines, a) as usize);
    anyone(lines, a) & (k.mode == mode)
}

// Mailbox a has no room for a message.
#[tactic(auto, unfolding(rules::specs::Mailboxes::is_full))]
pub fn is_full(mailboxes: &Mailboxes, a: u32) -> bool
    ensures { result ≡ is_full mailboxes.now a }
{
    let most = rows::mailbox(mailboxes, a as usize, CAPACITY);
    let n = rows::mailbox(mailboxes, a as usize, MESSAGES);
    most <= n
}

// A post goes on to wait.
#[tactic(auto, unfolding(rules::specs::Mailboxes::post_waits))]
pub fn post_waits(tasks: &Tasks, lines: &Lines, mailboxes: &Mailboxes, a: u32, limit: u32) -> bool
    ensures { result ≡ post_waits tasks.now lines.now mailboxes.now a limit }
{
    let reader = waits_first(tasks, lines, a, READING);
    !reader & is_full(mailboxes, a) & (limit != 0)
}

// A pend goes on to wait. Stays beside its likes of other kinds: one test each, of another word.
#[tactic(auto, unfolding(rules::specs::Mailboxes::pend_waits))]
pub fn pend_waits(mailboxes: &Mailboxes, a: u32, limit: u32) -> bool
    ensures { result ≡ pend_waits mailboxes.now a limit }
{
    let n = rows::mailbox(mailboxes, a as usize, MESSAGES);
    (n == 0) & (limit != 0)
}

// ---- limit 0 instead of a wait: outcome 1; waiters in arrival order

// A post or pend that is not done at once: not met, or the current task waits, holding the word.
pub fn not_done(
    tasks: &mut Tasks,
    lines: &mut Lines,
    state: &State,
    mode: u32,
    a: u32,
    limit: u32,
    word: u32,
) -> Answer
    ensures { (ms : List ℕ) → with_answer result (wait_tables tasks.new lines.new ms)
        ≡ not_done (wait_tables tasks.old lines.old ms) state.now mode a limit word }
{
    if limit == 0 {
        return answers::accepted(NOT_MET, 0);
    }
    let i = u32::from(rows::readings::current(state));
    moves::wait(tasks, lines, i, mode, a, limit, word, 0);
    answers::accepted(NOW_WAITING, 0)
}
