// Replays logs that are whole in memory, fronts of the log on standard input: document 01's sample, and then the last result of task 0, 130 times.
// The buffers are full of dots, and what a text leaves free is a dot still.
#![tactic(auto)]

ghost use Rattle.std.specs.Prelude.{◌^◌, ◌<◌, ◌≤◌};

type Log = [u8; 2700];

// A buffer of N bytes after a replay of the log, from a byte of it on, and in a line how many bytes were put.
fn show<const N: usize>(rt: &HostRuntime, log: &[u8], from: usize)
    requires { (from ≤ N) × (N < 2 ^ 63) }
{
    let mut out = [b'.'; N];
    let put = desk_whole::replay_log(log, &mut out);
    let text = &out[..];
    let _ = rt.write_all(&text[from..]);
    let _ = println!(rt; "\n{put}");
}

// The first n bytes, with room for all of the sample's text and two bytes more.
fn show_front(rt: &HostRuntime, log: &Log, n: usize) {
    show::<64>(rt, text::front(log, n), 0);
}

// The sample with a fault in the length of its third record, and then in the version of its fourth.
fn show_faults(rt: &HostRuntime, log: &mut Log) {
    log[41] = 19;
    show_front(rt, log, 100);
    log[41] = 18;
    log[62] = 2;
    show_front(rt, log, 100);
    log[62] = 1;
}

// The sample in a buffer that is too short, and in one that has no room at all.
fn show_short(rt: &HostRuntime, log: &Log) {
    let sample = text::front(log, 100);
    show::<20>(rt, sample, 0);
    show::<0>(rt, sample, 0);
}

// All of it, which is more than one part: the text has 1,656 bytes, and the last four records' lines begin at 1,596.
fn show_all(rt: &HostRuntime, log: &Log) {
    show::<1664>(rt, log, 1596);
}

fn main(rt: HostRuntime) {
    let mut log = [0u8; 2700];
    streams::read_full(&mut rt.stdin(), &mut log);
    for n in [100, 0, 41, 59] {
        show_front(&rt, &log, n);
    }
    show_faults(&rt, &mut log);
    show_short(&rt, &log);
    show_all(&rt, &log);
}
