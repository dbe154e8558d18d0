// For the desk's views: replays each log that an argument names, or standard input where there is none, and prints a line of numbers for each
// record (docs/TRACE.md), last the line that ends every replay.
// A record is read and its call made by the step that every replay stands on, `desk_reads::next`; the tables before it are kept beside those after it.
#![tactic(auto)]

ghost use Rattle.std.specs.Prelude.{◌≡◌, ◌+◌, ◌/◌, ◌≤◌, cond as if, length};

use desk::Part;
use desk_reads::Replayed;
use kernel::SafeTables;
use rules::Tables;
use std::io::Read;
use streams::fail;
use text::Text;
use trace_changes::Made;

// No line is longer than `LINE_MOST`, whatever the tables are (`trace_line::put_trace` promises it), so that a whole one fits behind a text that is no
// longer than this.
const FULL: usize = text::TEXT_BYTES - trace_line::LINE_MOST;

// ---- the line of a record

// What a replay carries from record to record beside its tables: how many records there were, the offset in the log at which the part starts, how many
// bytes wait at its front, how long the text is that is not written yet, and whether it goes on.
// Stays a flag: a replay that has ended still has a text to write.
#[derive(Clone, Copy)]
struct Carried {
    count: u64,
    offset: u64,
    held: usize,
    len: usize,
    going: bool,
}

// The line of what was read, by the tables before its call and after it: a record's, or the last one.
fn put_read(
    out: &mut Text,
    c: Carried,
    read: Replayed,
    before: &Tables,
    after: &Tables,
) -> Carried {
    let found = read.found;
    let rules::Read::Record { .. } = found else {
        let len = desk_reads::last::put_last(out, c.len, found, c.offset, c.count);
        return Carried {
            len,
            going: false,
            ..c
        };
    };
    let count = c.count.wrapping_add(1);
    let made = Made {
        n: count,
        asked: read.asked,
        answer: read.answer,
        thread: read.thread,
    };
    let len = trace_line::put_trace(out, c.len, made, before, after);
    Carried { count, len, ..c }
}

// ---- the records of a part

// Writes the text, and says so. Who reads it may have gone, which is no fault.
fn write_text(rt: &HostRuntime, out: &[u8], len: usize) -> bool {
    if let Err(error) = rt.write_all(text::front(out, len)) {
        if !streams::is_gone(error) {
            fail(rt, b"standard output", error);
        }
        return false;
    }
    true
}

// Writes the text that is not written yet; the replay has ended where it cannot be.
fn written(rt: &HostRuntime, c: Carried, out: &Text) -> Carried {
    let going = write_text(rt, out, c.len) & c.going;
    Carried { len: 0, going, ..c }
}

// Room for a line.
fn roomy(rt: &HostRuntime, c: Carried, out: &Text) -> Carried {
    if FULL < c.len {
        return written(rt, c, out);
    }
    c
}

// How many places of a part are read: that of each whole record, and where nothing follows that at which the log ends.
fn places(log: &[u8], last: bool) -> usize
    ensures value { result ≡ if last (length log.now / 20 + 1) (length log.now / 20) }
    ensures upper_bound { result ≤ length log.now / 20 + 1 }
{
    if last {
        return log.len() / 20 + 1;
    }
    log.len() / 20
}

// What stands at the places of a part, with which the log may begin: a record's call is made, anything else ends the replay.
fn read_part(
    rt: &HostRuntime,
    t: &mut SafeTables,
    carried: Carried,
    log: &[u8],
    last: bool,
    out: &mut Text,
) -> Carried {
    let mut c = carried;
    desk_reads::begin(&mut t.tables.state, log, c.count);
    for i in 0..places(log, last) {
        if !c.going {
            break;
        }
        let before = t.tables;
        let read = desk_reads::next(t, log, i * 20);
        c = roomy(rt, put_read(out, c, read, &before, &t.tables), out);
    }
    written(rt, c, out)
}

// ---- the parts of a log

// Reads behind the bytes that wait, and says how many bytes are there then; nothing where the read fails, which `name` is told. There is always room:
// fewer than 20 bytes wait.
fn read_behind<R: Read>(
    rt: &HostRuntime,
    from: &mut R,
    name: &[u8],
    part: &mut [u8],
    held: usize,
) -> Option<usize> {
    if part.len() <= held {
        return None;
    }
    match from.read(&mut part[held..]) {
        Ok(more) => Some(held + more),
        Err(error) => {
            fail(rt, name, error);
            None
        }
    }
}

// One turn: what came is told, and what is left of a record that is not whole yet is moved to the front of the part.
fn turn<R: Read>(
    rt: &HostRuntime,
    t: &mut SafeTables,
    carried: Carried,
    from: &mut R,
    name: &[u8],
    part: &mut Part,
    out: &mut Text,
) -> Carried {
    let mut c = carried;
    let Some(n) = read_behind(rt, from, name, part, c.held) else {
        c.going = false;
        return c;
    };
    // where nothing came, nothing follows
    let last = n == c.held;
    c = read_part(rt, t, c, text::front(part, n), last, out);
    let whole = n - n % 20;
    c.offset = c.offset.wrapping_add(whole as u64);
    c.held = desk::to_front(part, whole, n);
    c
}

// All turns. A loop has to end, and nothing says that a log does: the turns are counted to a number that no run comes to.
fn trace_all<R: Read>(rt: &HostRuntime, from: &mut R, name: &[u8]) {
    let mut part = [0u8; 2560];
    let mut out = [0u8; text::TEXT_BYTES];
    let mut t = SafeTables {
        tables: entries::fresh(rules::numbers::FEW_LEVELS).tables,
    };
    let mut c = Carried {
        count: 0,
        offset: 0,
        held: 0,
        len: 0,
        going: true,
    };
    for _ in 0..u64::MAX {
        if !c.going {
            break;
        }
        c = turn(rt, &mut t, c, from, name, &mut part, &mut out);
    }
}

// The log in the file of this name.
fn trace_file(rt: &HostRuntime, name: &[u8]) {
    match streams::open(rt, name) {
        Ok(mut log) => trace_all(rt, &mut log, name),
        Err(error) => fail(rt, name, error),
    }
}

// The log that argument k names.
fn trace_named(rt: &HostRuntime, k: usize) {
    let mut name = [0u8; streams::WORD_BYTES];
    match streams::word(rt, k, &mut name) {
        Ok(length) => trace_file(rt, &name[..length]),
        Err(error) => fail(rt, b"argument", error),
    }
}

fn main(rt: HostRuntime) {
    let words = streams::words(&rt);
    if words < 2 {
        trace_all(&rt, &mut rt.stdin(), b"standard input");
    }
    for k in 1..words {
        trace_named(&rt, k);
    }
}
