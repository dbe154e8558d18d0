// A worked example of the reader: it reads a log of two records and a fault, and hands out each record's arguments when it has read it.
#![tactic(auto)]

ghost use Rattle.std.specs.Prelude.{◌≡◌};
ghost use Rattle.test_reader.specs.Walk.{start_of, arguments_in, walked, is_record, is_version, are_in};

use call_log::reader::Reader;
use rules::Read;

// Where the arguments of what was found start; 0 for what is no record.
fn start_of(found: Read) -> usize
    ensures { result ≡ start_of found }
{
    match found {
        Read::Record { start, .. } => start,
        _ => 0,
    }
}

// How many bytes were handed out, and the four arguments in them.
#[derive(Clone, Copy, PartialEq)]
struct Arguments {
    len: usize,
    a: u32,
    b: u32,
    c: u32,
    d: u32,
}

fn arguments_in(bytes: &[u8]) -> Arguments
    ensures { result ≡ arguments_in bytes.now }
{
    Arguments {
        len: bytes.len(),
        a: call_log::argument(bytes, 0),
        b: call_log::argument(bytes, 1),
        c: call_log::argument(bytes, 2),
        d: call_log::argument(bytes, 3),
    }
}

// What a reader of a log finds at its first three reads, what it hands out after each of the first two, and its position in the end.
#[derive(Clone, Copy)]
struct Walked {
    first: Read,
    one: Arguments,
    second: Read,
    two: Arguments,
    third: Read,
    at: usize,
}

fn walk(log: &[u8]) -> Walked
    ensures { result ≡ walked log.now }
{
    let mut reader = Reader::new(log);
    let first = reader.next();
    let one = arguments_in(reader.arguments(start_of(first)));
    let second = reader.next();
    let two = arguments_in(reader.arguments(start_of(second)));
    let third = reader.next();
    Walked {
        first,
        one,
        second,
        two,
        third,
        at: reader.at,
    }
}

// Whether a record was found, of this call number, and its arguments start there.
fn is_record(found: Read, number: u8, start: usize) -> bool
    ensures { result ≡ is_record found number start }
{
    found == Read::Record { number, start }
}

// Whether a wrong version was found, there.
fn is_version(found: Read, at: usize) -> bool
    ensures { result ≡ is_version found at }
{
    found == Read::Version(at)
}

// Whether sixteen bytes were handed out, and these are the first two arguments in them, before two that are 0.
fn are(handed: Arguments, a: u32, b: u32) -> bool
    ensures { result ≡ are_in handed a b }
{
    handed
        == Arguments {
            len: 16,
            a,
            b,
            c: 0,
            d: 0,
        }
}

// 01's records 'create at 5' and 'pend on 0 without end', and its 'post 0' with version 2.
fn main() {
    let log = b"\
        \x00\x12\x01\x00\x00\x00\x00\x05\x00\x00\x00\x00\x00\x00\x00\x00\x00\x00\x00\x00\
        \x00\x12\x01\x22\x00\x00\x00\x00\xff\xff\xff\xff\x00\x00\x00\x00\x00\x00\x00\x00\
        \x00\x12\x02\x23\x00\x00\x00\x00\x00\x00\x00\x00\x00\x00\x00\x00\x00\x00\x00\x00";
    let walked = walk(log);
    let one = walked.one;
    let two = walked.two;
    check::expect(
        is_record(walked.first, 0x00, 4)
            & are(one, 5, 0)
            & is_record(walked.second, 0x22, 24)
            & are(two, 0, 4294967295)
            & is_version(walked.third, 40)
            & (walked.at == 40),
    );
}
