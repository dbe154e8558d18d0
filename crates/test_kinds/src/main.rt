// Trials of the call core: the log of each kind, each call by value and in place. The calls and their answers were worked out by hand from
// document 01 (reference/threads.c, pends.c, machine.c and levels.c).
#![tactic(auto)]

mod logs;

// The logs of the kinds, by their files' names.
const LOGS: [&str; 9] = [
    "tasks.log",
    "swis.log",
    "semaphores.log",
    "events.log",
    "mailboxes.log",
    "clocks.log",
    "heap.log",
    "switches.log",
    "levels.log",
];

fn main(rt: HostRuntime) {
    for name in LOGS {
        logs::try_log(&rt, name.as_bytes());
    }
}
