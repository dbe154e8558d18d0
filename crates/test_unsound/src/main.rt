// The rules of sound tables: sound tables accept a call, by value and in place, and refuse it with code 10, unchanged, once a rule is broken.
#![tactic(auto)]

mod calls;
mod changes;
mod far;
mod of_lines;
mod of_objects;
mod of_tasks;
mod sets;

use calls::try_sound;
use sets::{busy, held, wide};

fn main(rt: HostRuntime) {
    try_sound(&rt, b"busy tables", busy());
    try_sound(&rt, b"held tables", held());
    try_sound(&rt, b"wide tables", wide());
    of_tasks::break_all(&rt, busy());
    of_lines::break_all(&rt, busy());
    of_objects::break_all(&rt, busy());
    far::break_all(&rt, busy());
}
