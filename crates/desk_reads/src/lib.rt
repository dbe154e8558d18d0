// One read of a log that comes part by part: a record's call on lent tables and its line, or the last line.
#![tactic(auto)]

pub mod last;

ghost use Rattle.std.specs.Prelude.{◌≡◌, true, ◌++◌, length};
ghost use Rattle.rules.specs.Answer.{asked, answer};
ghost use Rattle.rules.specs.declared.Thread.TheVariants.{Task};
ghost use Rattle.rules.specs.Log.{read_in, handed_out};
ghost use Rattle.rules.specs.Text.{line_text, line_feed};
ghost use Rattle.text.specs.Put.{Put};
ghost use Rattle.desk_parts.specs.Part.{version_by, begun_state, last_text};
ghost use Rattle.desk_reads.specs.Next.{call_in, replayed_to, replay_step, next_step};
ghost use Rattle.desk_reads.specs.Done.{place_at, read_result, ReadLeaves};

use kernel::{SafeTables, Said};
use rules::{Answer, Call, Read, State, Thread};
use text::Text;

// No. 14: 'The first record decides for the whole log'. As long as no record was read, these bytes
// are the log's beginning: if its version is there and is 2, the tables get 32 levels.
#[tactic(auto, unfolding(desk_parts::specs::Part::begun_state))]
pub fn begin(state: &mut State, log: &[u8], count: u64)
    ensures { state.new ≡ begun_state count log.now state.old }
{
    if (count == 0) & (call_log::version_of(log) == call_log::SECOND_EDITION) {
        state[rules::numbers::LEVELS] = rules::numbers::MOST_LEVELS;
    }
}

// The version that a record of the log must have, by the levels of its tables.
#[tactic(auto, unfolding(desk_parts::specs::Part::version_by))]
pub fn version_by(state: &State) -> u8
    ensures { result ≡ version_by state.now }
{
    if rows::readings::levels(state) == rules::numbers::MOST_LEVELS {
        return call_log::SECOND_EDITION;
    }
    call_log::FIRST_EDITION
}

// The call of a record, by where its argument bytes start and its number.
fn record_call(log: &[u8], start: usize, number: u8) -> Call
    ensures { result ≡ call_in (handed_out log.now start) number }
{
    let bytes = call_log::reader::read_arguments(log, start);
    Call {
        number: u32::from(number),
        a: call_log::argument(bytes, 0),
        b: call_log::argument(bytes, 1),
        c: call_log::argument(bytes, 2),
        d: call_log::argument(bytes, 3),
    }
}

// What one read of a log comes to: what was found, the place after it, the call, its answer and the thread that runs then. Where no record stands
// nothing is called: the place stays, and the call and its answer are all 0, the thread T0.
// Stays one struct, with no `Option` for the call: `replayed_to` and `step_without` (specs/Next) say these five parts.
#[derive(Clone, Copy)]
pub struct Replayed {
    pub found: Read,
    pub at: usize,
    pub asked: Call,
    pub answer: Answer,
    pub thread: Thread,
}

// With a call that was made.
fn called(found: Read, at: usize, asked: Call, said: Said) -> Replayed
    ensures { result ≡ replayed_to found at asked said.answer said.thread }
{
    let answer = said.answer;
    let thread = said.thread;
    Replayed {
        found,
        at,
        asked,
        answer,
        thread,
    }
}

// With none.
fn not_called(found: Read, at: usize) -> Replayed
    ensures { result ≡ replayed_to found at (asked 0 0 0 0 0) (answer 0 0 0) (Task 0) }
{
    let asked = Call {
        number: 0,
        a: 0,
        b: 0,
        c: 0,
        d: 0,
    };
    let said = Said {
        answer: answers::accepted(rules::numbers::DONE, 0),
        thread: Thread::Task(0),
    };
    called(found, at, asked, said)
}

// One step of a replay: what stands at a place of a log, or of a part of a log, with the version that the tables tell; a record's call is made.
pub fn next(t: &mut SafeTables, log: &[u8], at: usize) -> Replayed
    ensures { replay_step result t.new
        ≡ next_step (read_in (version_by t.old.state) log.now at) log.now at t.old }
{
    let step = call_log::reader::step_in(log, at, version_by(&t.tables.state));
    let found = step.found;
    let Read::Record { number, start } = found else {
        return not_called(found, step.at);
    };
    let asked = record_call(log, start, number);
    let said = t.step(asked);
    called(found, step.at, asked, said)
}

// The line of record n, by what its call said.
fn put_replayed(out: &mut Text, at: usize, n: u64, read: Replayed) -> usize
    ensures { Put out.old at (line_text n read.answer read.thread ++ line_feed) out.new result }
{
    let answer = read.answer;
    let thread = read.thread;
    text::put_line(out, at, n, answer, thread)
}

// Where the replay of a part is: the place of the next read, how many records there were, how long the text is, and whether it has ended.
// `ended` stays a flag: the rest stands where it is set too, and `ReadLeaves` (specs/Done) says both.
#[derive(Clone, Copy)]
pub struct PartPlace {
    pub at: usize,
    pub count: u64,
    pub len: usize,
    pub ended: bool,
}

pub fn place_at(at: usize, count: u64, len: usize, ended: bool) -> PartPlace
    ensures { result ≡ place_at at count len ended }
{
    PartPlace {
        at,
        count,
        len,
        ended,
    }
}

// The replay ends at what was found, which is no record.
fn ended_at(log: &[u8], found: Read, offset: u64, ran: PartPlace, out: &mut Text) -> PartPlace
    ensures { Put out.old ran.len (last_text found offset ran.count) out.new result.len
        × (result ≡ place_at (length log.now) ran.count result.len true) }
{
    let len = last::put_last(out, ran.len, found, offset, ran.count);
    place_at(log.len(), ran.count, len, true)
}

// One read of a part that starts at an offset of the log: a record's call and its line, or the last line.
pub fn next_line(
    t: &mut SafeTables,
    log: &[u8],
    offset: u64,
    ran: PartPlace,
    out: &mut Text,
) -> PartPlace
    ensures { ReadLeaves
        (read_result (read_in (version_by t.old.state) log.now ran.at) log.now offset ran.count t.old)
        t.new out.old ran.len out.new result }
{
    let read = next(t, log, ran.at);
    let found = read.found;
    let Read::Record { .. } = found else {
        return ended_at(log, found, offset, ran, out);
    };
    let n = ran.count.wrapping_add(1);
    let len = put_replayed(out, ran.len, n, read);
    place_at(read.at, n, len, false)
}
