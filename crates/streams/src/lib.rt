// What programs read and write, over std: the words of a command line, files by their names, and what is said where a call failed.
#![tactic(auto)]

ghost use Rattle.std.specs.Prelude.{◌≡◌};
ghost use Rattle.std.specs.IoError.{raw_os_error};
ghost use Rattle.io.specs.Counts.{IsPrefixLen};
ghost use Rattle.streams.specs.Gone.{is_gone};
ghost use Rattle.std.specs.Io.{ReadsAtMost};

use std::env::FillError;
use std::fmt::InlineText;
use std::fs::File;
use std::io;
use std::io::Read;
use std::rt::Env;
use text::Text;

// The system's numbers of errors: what is not there, a descriptor that is closed, a pipe that nobody reads, and a name that is too long.
const NOT_THERE: i32 = 2;

const CLOSED: i32 = 9;

const GONE: i32 = 32;

const NAME_TOO_LONG: i32 = 36;

// How many bytes of a word of the command line there is room for: any path fits.
pub const WORD_BYTES: usize = 4096;

// How many bytes of an error in the system's words there is room for.
const REASON_BYTES: usize = 256;

// How many words the command line has, the program's own name too.
pub fn words(rt: &HostRuntime) -> usize {
    let mut room = [0u8; 1];
    for i in 0..usize::MAX {
        if let Err(FillError::NotPresent) = rt.arg(i, &mut room) {
            return i;
        }
    }
    usize::MAX
}

// Puts word k of the command line at the start of room, and says how long it is.
pub fn word(rt: &HostRuntime, k: usize, room: &mut [u8]) -> io::Result<usize>
    ensures { ReadsAtMost result room.new }
{
    match rt.arg(k, room) {
        Ok(n) => Ok(n),
        Err(FillError::TooLong) => Err(io::Error::from_raw_os_error(NAME_TOO_LONG)),
        Err(FillError::NotPresent) => Err(io::Error::from_raw_os_error(NOT_THERE)),
    }
}

// Opens the file of this name, to read it.
pub fn open(rt: &HostRuntime, name: &[u8]) -> io::Result<File> {
    match std::str::from_utf8(name) {
        Ok(path) => File::open(rt, path),
        Err(_) => Err(io::Error::new(io::ErrorKind::InvalidInput, "the name is not UTF-8")),
    }
}

// Reads until the room is full, the input ends or a read fails, and says how many bytes it put at the start.
pub fn read_full<R: Read>(from: &mut R, room: &mut [u8]) -> usize
    ensures { IsPrefixLen result room.new }
{
    let mut done = 0;
    // Stays a `while`: no index is counted, a step is as long as what a read brought.
    while done < room.len() {
        let n = from.read(&mut room[done..]).unwrap_or(0);
        if n == 0 {
            break;
        }
        done += n;
    }
    done
}

// Whether a write failed because who was to read it has gone, or was never there.
pub fn is_gone(error: io::Error) -> bool
    ensures { result ≡ is_gone (raw_os_error error) }
{
    match error.raw_os_error() {
        Some(code) => (code == GONE) | (code == CLOSED),
        None => false,
    }
}

// An error of the system in its words, without the number behind them.
fn put_reason(out: &mut Text, at: usize, error: io::Error) -> usize {
    let said = InlineText::<REASON_BYTES>::of(error);
    let all = said.as_str();
    let words = match all.find(" (os error ") {
        Some(n) => &all.as_bytes()[..n],
        None => all.as_bytes(),
    };
    text::put_text(out, at, words)
}

// Says of `name` why a call failed, in one line on standard error.
pub fn fail(rt: &HostRuntime, name: &[u8], error: io::Error) {
    let mut out = [0u8; text::TEXT_BYTES];
    let p = text::put_text(&mut out, 0, name);
    let q = text::put_text(&mut out, p, b": ");
    let r = put_reason(&mut out, q, error);
    let end = text::put_byte(&mut out, r, b'\n');
    let _ = rt.stderr().write_all(text::front(&out, end));
}
