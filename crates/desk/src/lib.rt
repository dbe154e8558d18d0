// The replay of a log that comes part by part, as text. The calls are made on lent tables, and of the log only the bytes of a record
// that is not whole yet are kept.
#![tactic(auto)]

ghost use Rattle.std.specs.Prelude.{◌≡◌, ◌+◌, min, length, take, drop, ◌==◌};
ghost use Rattle.std.proofs.lemmas.List.Edits.{sets};
ghost use Rattle.desk_parts.specs.Part.{turn, start};
ghost use Rattle.desk.specs.Done.{come_to, progress_of, replay_state, behind, TurnLeaves};

use desk_reads::{PartPlace, begin, next_line, place_at};
use kernel::SafeTables;
use text::Text;

// A part of a log: the bytes that waited, and those that came.
// Stays a buffer with a count beside it (`Progress::held`): no heap, fixed memory.
pub type Part = [u8; 2560];

// Of the first n bytes, those from `at` on to the front; how many they are.
pub fn to_front(part: &mut [u8], at: usize, n: usize) -> usize
    ensures { (part.new ≡ sets part.old 0 (drop at (take n part.old))) × (result ≡ length (drop at (take n part.old))) }
{
    let end = n.min(part.len());
    if end <= at {
        return 0;
    }
    part.copy_within(at..end, 0);
    end - at
}

// What a replay has come to, beside its tables: how many bytes wait at the front of the part, their offset in the log, how many
// records there were, how long the text is, and whether the replay has ended.
// `ended` stays a flag: the rest stands where it is set too, and `replay_state` (specs/Done) says both.
#[derive(Clone, Copy)]
pub struct Progress {
    pub held: usize,
    pub offset: u64,
    pub count: u64,
    pub len: usize,
    pub ended: bool,
}

// What a replay has come to where records of a part stopped.
fn come_to(offset: u64, ran: PartPlace, held: usize) -> Progress
    ensures { result ≡ come_to offset ran held }
{
    Progress {
        held,
        offset: offset.wrapping_add(ran.at as u64),
        count: ran.count,
        len: ran.len,
        ended: ran.ended,
    }
}

// Nothing is read yet.
pub fn begun() -> Progress
    ensures { result ≡ progress_of start }
{
    Progress {
        held: 0,
        offset: 0,
        count: 0,
        len: 0,
        ended: false,
    }
}

// Where the bytes of a part end: those that waited, and more behind them.
fn end_of(held: usize, more: usize) -> usize
    ensures { result ≡ min held 2560 + min more 2560 }
{
    held.min(2560) + more.min(2560)
}

// A buffer of text has its type's length. A reference to it does not tell a proof so, the buffer by value does; nothing is done, and nothing is left
// of a call in a compiled program.
fn sized(out: Text)
    ensures { length out ≡ 16384 }
{}

// One turn of a replay that has come to p: more bytes stand in the part behind those that waited; where there are none, nothing follows. All of
// them are replayed, and those that wait then are moved to its front.
pub fn replay_part(
    t: &mut SafeTables,
    part: &mut Part,
    more: usize,
    p: Progress,
    out: &mut Text,
) -> Progress
    ensures { TurnLeaves
        (turn (more == 0) (behind part.old p more) (replay_state t.old part.old out.old p))
        t.new part.old part.new out.old out.new result }
{
    sized(*out);
    let n = end_of(p.held, more);
    let log = text::front(part, n);
    begin(&mut t.tables.state, log, p.count);
    let mut ran = place_at(0, p.count, 0, false);
    // Stays a `while`: no index is counted, the place of the next read is what the last one said.
    while !ran.ended && ((more == 0) | (20 <= log.len() - ran.at)) {
        ran = next_line(t, log, p.offset, ran, out);
    }
    come_to(p.offset, ran, to_front(part, ran.at, n))
}
