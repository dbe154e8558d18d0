// A mailbox's messages in place: the oldest first, at most eight.
ghost use Rattle.std.specs.Prelude.{◌≡◌, [], ◌∷◌, ◌++◌, length, get_or, drop};
ghost use Rattle.rules.specs.Tables.{messages, with_messages};

use rules::Mailboxes;
use rules::numbers::{MAILBOX_MOST, MAILBOX_ROWS, MAILBOX_WIDTH, MESSAGES, OLDEST};

// How many messages mailbox i has.
#[tactic(auto, using(crate::proofs::InMailbox::counted))]
pub fn count(mailboxes: &Mailboxes, i: usize) -> usize
    ensures { result ≡ length (messages mailboxes.now i) }
{
    rows::mailbox(mailboxes, i, MESSAGES).min(MAILBOX_MOST) as usize
}

// How many of them stand behind the oldest.
pub fn count_behind(mailboxes: &Mailboxes, i: usize) -> usize
    ensures { result ≡ length (drop 1 (messages mailboxes.now i)) }
{
    count(mailboxes, i).saturating_sub(1)
}

// The oldest message of mailbox i; 0 where there is none.
#[tactic(auto, using(crate::proofs::InMailbox::read))]
pub fn oldest(mailboxes: &Mailboxes, i: usize) -> u32
    ensures { result ≡ get_or (messages mailboxes.now i) 0 0 }
{
    if 0 < count(mailboxes, i) {
        return rows::mailbox(mailboxes, i, OLDEST);
    }
    0
}

// The word joins the messages of mailbox i at the back; eight messages stay as they are.
#[tactic(auto, using(crate::proofs::InMailbox::joined))]
pub fn put_word(mailboxes: &mut Mailboxes, i: usize, word: u32)
    ensures { mailboxes.new ≡ with_messages mailboxes.old i (messages mailboxes.old i ++ (word ∷ [])) }
{
    if i < MAILBOX_ROWS {
        let at = i * MAILBOX_WIDTH + MESSAGES;
        let n = mailboxes[at];
        if n < MAILBOX_MOST {
            mailboxes[at + 1 + n as usize] = word;
            mailboxes[at] = n + 1;
        }
    }
}

// The oldest message of mailbox i goes, and the word joins the others at the back.
#[tactic(auto, using(crate::proofs::InMailbox::shifted))]
pub fn shift(mailboxes: &mut Mailboxes, i: usize, word: u32)
    ensures { mailboxes.new ≡ with_messages mailboxes.old i (drop 1 (messages mailboxes.old i) ++ (word ∷ [])) }
{
    if i < MAILBOX_ROWS {
        let at = i * MAILBOX_WIDTH + MESSAGES;
        let n = count_behind(mailboxes, i);
        mailboxes.copy_within(at + 2..at + 2 + n, at + 1);
        mailboxes[at + 1 + n] = word;
        mailboxes[at] = n as u32 + 1;
    }
}

// The oldest message of mailbox i goes.
#[tactic(auto, using(crate::proofs::InMailbox::taken))]
pub fn take_word(mailboxes: &mut Mailboxes, i: usize)
    ensures { mailboxes.new ≡ with_messages mailboxes.old i (drop 1 (messages mailboxes.old i)) }
{
    let n = count(mailboxes, i);
    if 0 < n {
        shift(mailboxes, i, 0);
        rows::set_mailbox(mailboxes, i, MESSAGES, n as u32 - 1);
    }
}
