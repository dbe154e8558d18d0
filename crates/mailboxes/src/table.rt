// A mailbox's row, and the first row that is free.
ghost use Rattle.std.specs.Prelude.{◌≡◌, ◌-◌, ◌≤◌, ◌∷◌};
ghost use Rattle.rules.specs.Mailboxes.{free_mailbox};
ghost use Rattle.basics.specs.Lists.{zeros};
ghost use Rattle.rules.specs.Tables.{mailbox_row, mailbox_width};

use rules::Mailboxes;
use rules::numbers::{CAPACITY, MAILBOX_ROWS_U8, MAILBOX_WIDTH, MAILBOX_WIDTH_U8};

// The lowest number of a mailbox not in use; 8 where all are in use. Stays a number, and no Option: `free_mailbox` of rules/specs is that number.
#[tactic(auto, unfolding(rules::specs::Mailboxes::free_mailbox))]
pub fn free_mailbox(mailboxes: &Mailboxes) -> usize
    ensures { (result ≡ free_mailbox mailboxes.now) × (result ≤ 8) }
{
    rows::first_zero(mailboxes, MAILBOX_WIDTH_U8, MAILBOX_ROWS_U8, CAPACITY)
}

// Mailbox i with this capacity and no messages; with capacity 0 it is not in use.
pub fn put_mailbox(mailboxes: &mut Mailboxes, i: usize, capacity: u32)
    ensures { mailboxes.new ≡ mailbox_row mailboxes.old i (capacity ∷ zeros (mailbox_width - 1)) }
{
    let mut row = [0; MAILBOX_WIDTH];
    row[CAPACITY] = capacity;
    rows::put_row(mailboxes, MAILBOX_WIDTH_U8, MAILBOX_ROWS_U8, i, &row)
}
