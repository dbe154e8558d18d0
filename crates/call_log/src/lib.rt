// The call log: what stands at a position, and a record's arguments as a part of the log. Any bytes and any position get an answer.
#![tactic(auto)]

ghost use Rattle.std.specs.Prelude.{◌≡◌, ◌%◌, ◌^◌, ◌<◌, slice_index};
ghost use Rattle.rules.specs.Log.{version_of, levels_for, is_version, half_at, word_at, read_in, read_at, argument, move_to};
ghost use Rattle.call_log.specs.Part.{PartAt};

use rules::Read;

pub mod reader;

// The versions of a log, by its editions.
pub const FIRST_EDITION: u8 = 1;

pub const SECOND_EDITION: u8 = 2;

// Which byte of a record its version is.
const VERSION_AT: usize = 2;

// The byte at a place; 0 past the end.
fn byte_at(s: &[u8], at: usize) -> u8
    ensures { result ≡ slice_index s.now at }
{
    s.get(at).copied().unwrap_or(0)
}

// Two bytes, big-endian.
// Stays by hand, as `word_at` does: past the end a byte reads 0, where `from_be_bytes` would have none to take.
fn half_at(s: &[u8], at: usize) -> u32
    ensures { (result ≡ half_at s.now at) × (result < 65536) }
{
    if at < s.len() {
        return s[at] as u32 * 256 + byte_at(s, at + 1) as u32;
    }
    0
}

// Four bytes, big-endian.
fn word_at(s: &[u8], at: usize) -> u32
    ensures { result ≡ word_at s.now at }
{
    if at < s.len() {
        return half_at(s, at) * 65536 + half_at(s, at + 2);
    }
    0
}

// No. 14: 'The first record decides for the whole log': the version that it has; 0 where the log is too short to have one.
pub fn version_of(log: &[u8]) -> u8
    ensures { result ≡ version_of log.now }
{
    byte_at(log, VERSION_AT)
}

// No. 14: 'Log version 2 .. means 32 levels; a version 1 log replays with 16'. So does another version, whose log has no record.
pub fn levels_for(version: u8) -> u32
    ensures { result ≡ levels_for version }
{
    if version == SECOND_EDITION {
        return rules::numbers::MOST_LEVELS;
    }
    rules::numbers::FEW_LEVELS
}

fn is_version(version: u8) -> bool
    ensures { result ≡ is_version version }
{
    (version == FIRST_EDITION) | (version == SECOND_EDITION)
}

// What stands at a position of a log, or of a part of a log; the version is that of the log's first record.
pub fn read_in(log: &[u8], at: usize, version: u8) -> Read
    ensures { result ≡ read_in version log.now at }
{
    if log.len() < at {
        return Read::Cut(at);
    }
    if log.len() == at {
        return Read::End;
    }
    if log.len() - at == 1 {
        return Read::Cut(at);
    }
    if half_at(log, at) != 18 {
        return Read::Length(at);
    }
    if log.len() - at < 20 {
        return Read::Cut(at);
    }
    if !is_version(version) | (log[at + VERSION_AT] != version) {
        return Read::Version(at);
    }
    Read::Record {
        number: log[at + 3],
        start: at + 4,
    }
}

// What stands at a position of a log.
pub fn read_at(log: &[u8], at: usize) -> Read
    ensures { result ≡ read_at log.now at }
{
    read_in(log, at, version_of(log))
}

// The sixteen argument bytes from `start` on, as that part of the log; an empty part where sixteen are not there.
pub fn arguments<'a>(log: &'a [u8], start: usize) -> &'a [u8]
    ensures { PartAt log.entry start result }
{
    let len = log.len();
    if len < start {
        return &log[..0];
    }
    if len - start < 16 {
        return &log[len..];
    }
    let end = start + 16;
    &log[start..end]
}

// Argument n of a record's argument bytes.
pub fn argument(bytes: &[u8], n: usize) -> u32
    ensures { result ≡ argument bytes.now n }
{
    if n <= bytes.len() / 4 {
        return word_at(bytes, n * 4);
    }
    0
}

// The position after what was found: only a good record moves it. What no log can hold goes round at the end of the positions.
#[tactic(auto, unfolding(rules::specs::Log::move_to))]
pub fn move_to(found: Read, at: usize) -> usize
    ensures { result ≡ move_to found at % 2 ^ 64 }
{
    match found {
        Read::Record { start, .. } => start.wrapping_add(16),
        Read::End => at,
        Read::Cut(_) | Read::Length(_) | Read::Version(_) => at,
    }
}
