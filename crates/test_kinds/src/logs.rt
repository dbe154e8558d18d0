// The calls of a log, one after the other, each by both entries.
use call_log::reader::Reader;
use rules::{Call, Read};
use test_calls::print::print;
use test_calls::put::{put_call, put_rest};
use test_calls::trial::try_call;

// The call of a record.
fn call_of(number: u8, bytes: &[u8]) -> Call {
    Call {
        number: u32::from(number),
        a: call_log::argument(bytes, 0),
        b: call_log::argument(bytes, 1),
        c: call_log::argument(bytes, 2),
        d: call_log::argument(bytes, 3),
    }
}

// The log's last line.
fn print_last(rt: &HostRuntime, found: Read, n: u64) {
    print(rt, |out| match found {
        Read::Record { .. } => text::put_word(out, 0, b"record", n),
        Read::End => text::put_word(out, 0, b"end", n),
        Read::Cut(at) => text::put_word(out, 0, b"cut", at as u64),
        Read::Length(at) => text::put_word(out, 0, b"length", at as u64),
        Read::Version(at) => text::put_word(out, 0, b"version", at as u64),
    });
}

// The records of a log, of which it has no more than bytes, each by both entries, and its last line.
fn try_records(rt: &HostRuntime, log: &[u8]) {
    let levels = call_log::levels_for(call_log::version_of(log));
    let mut t = entries::fresh(levels).tables;
    let mut u = t;
    let mut reader = Reader::new(log);
    let mut n = 0;
    for i in 0..log.len() {
        let Read::Record { number, start } = reader.next() else {
            break;
        };
        n = i as u64 + 1;
        let tried = try_call(t, u, call_of(number, reader.arguments(start)));
        print(rt, |out| put_call(out, n, tried, b""));
        t = tried.step.tables;
        u = tried.in_place.tables;
    }
    print_last(rt, reader.next(), n);
}

// A log by its file's name.
pub(crate) fn try_log(rt: &HostRuntime, path: &[u8]) {
    match streams::open(rt, path) {
        Ok(mut file) => {
            let mut log = [0u8; 65536];
            let n = streams::read_full(&mut file, &mut log);
            print(rt, |out| put_rest(out, 0, path));
            try_records(rt, &log[..n]);
        }
        Err(error) => streams::fail(rt, path, error),
    }
}
