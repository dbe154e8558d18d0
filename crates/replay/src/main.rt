// Replays the call log in the file that its one argument names, or on standard input where it has none. What is written is computed in `desk`; here
// bytes are read and written.
#![tactic(auto)]

ghost use Rattle.std.specs.Prelude.{◌≡◌, ◌⊎◌, length};
ghost use Rattle.std.specs.Result.{result_ok};
ghost use Rattle.rules.specs.Fresh.{fresh};
ghost use Rattle.desk.specs.Done.{replay_state, behind};
ghost use Rattle.replay.specs.Turns.{more, came_by, Behind, stopped, Handed, Replayed};

use desk::{Part, Progress};
use kernel::SafeTables;
use rules::Tables;
use std::io;
use std::io::Read;
use streams::fail;
use text::Text;

// What a read brought that answered `got` and was lent this room: how many bytes, or nothing where it failed.
fn brought(got: io::Result<usize>, room: &[u8]) -> Option<usize>
    ensures { result ≡ came_by (result_ok got) (length room.now) }
{
    Some(got.ok()?.min(room.len()))
}

// Says of `name` why a read failed, where it did.
fn tell_failed(rt: &HostRuntime, name: &[u8], got: io::Result<usize>) {
    if let Err(error) = got {
        fail(rt, name, error);
    }
}

// Reads behind the bytes that wait; `name` is told where the read fails. There is always room: fewer than 20 of them wait.
fn read_behind<R: Read>(
    rt: &HostRuntime,
    from: &mut R,
    name: &[u8],
    part: &mut [u8],
    held: usize,
) -> Option<usize>
    ensures { Behind held part.old part.new result }
{
    if part.len() <= held {
        return None;
    }
    let got = from.read(&mut part[held..]);
    let came = brought(got, &part[held..]);
    tell_failed(rt, name, got);
    came
}

// The same on the whole part, which becomes a slice where it is passed on.
fn read_part<R: Read>(
    rt: &HostRuntime,
    from: &mut R,
    name: &[u8],
    part: &mut Part,
    held: usize,
) -> Option<usize>
    ensures { Behind held part.old part.new result }
{
    read_behind(rt, from, name, part, held)
}

// Writes the text, and says so. Who reads it may have gone, which is no fault.
fn write_text(rt: &HostRuntime, out: &[u8], len: usize) -> bool {
    if let Err(error) = rt.write_all(text::front(out, len)) {
        if !streams::is_gone(error) {
            fail(rt, b"standard output", error);
        }
        return false;
    }
    true
}

fn stopped(p: Progress) -> Progress
    ensures { result ≡ stopped p }
{
    Progress { ended: true, ..p }
}

// Writes the text of a turn; the replay has ended where it cannot be written.
fn written(rt: &HostRuntime, out: &[u8], p: Progress) -> Progress
    ensures { (result ≡ p) ⊎ (result ≡ stopped p) }
{
    if write_text(rt, out, p.len) {
        return p;
    }
    stopped(p)
}

// One turn: what came is replayed, and its text is written.
fn turn(
    rt: &HostRuntime,
    t: &mut SafeTables,
    part: &mut Part,
    read: Option<usize>,
    p: Progress,
    out: &mut Text,
) -> Progress
    ensures { Handed read (behind part.old p (more read)) (replay_state t.old part.old out.old p)
        (replay_state t.new part.new out.new result) }
{
    let Some(more) = read else {
        return stopped(p);
    };
    let next = desk::replay_part(t, part, more, p, out);
    written(rt, out, next)
}

// Replays what can be read, and answers the tables that it came to; `name` is told where a read fails.
// A loop has to end, and nothing says that a log does: the turns are counted up to a number that no run comes to.
fn replay_all<R: Read>(rt: &HostRuntime, from: &mut R, name: &[u8]) -> Tables
    ensures { Replayed fresh result }
{
    let mut t = SafeTables {
        tables: entries::fresh(rules::numbers::FEW_LEVELS).tables,
    };
    let mut part = [0u8; 2560];
    let mut out = [0u8; 16384];
    let mut p = desk::begun();
    for _ in 0..u64::MAX {
        if p.ended {
            break;
        }
        let read = read_part(rt, from, name, &mut part, p.held);
        p = turn(rt, &mut t, &mut part, read, p, &mut out);
    }
    t.tables
}

// Replays the log in the file of this name.
fn replay_named(rt: &HostRuntime, name: &[u8]) {
    match streams::open(rt, name) {
        Ok(mut log) => {
            replay_all(rt, &mut log, name);
        }
        Err(error) => fail(rt, name, error),
    }
}

fn main(rt: HostRuntime) {
    let words = streams::words(&rt);
    if 2 < words {
        let _ = rt.stderr().write_all(b"usage: replay [LOG]\n");
        return;
    }
    if words < 2 {
        replay_all(&rt, &mut rt.stdin(), b"standard input");
        return;
    }
    let mut name = [0u8; streams::WORD_BYTES];
    match streams::word(&rt, 1, &mut name) {
        Ok(length) => replay_named(&rt, &name[..length]),
        Err(error) => fail(&rt, b"argument", error),
    }
}
