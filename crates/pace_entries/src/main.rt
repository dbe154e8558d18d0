// The same with the two entries that test the tables before each call: with `call_in_place`, or with `call` if a second argument is there.
#![tactic(auto)]

use kernel::Said;

// The calls in place on tables that are kept, from fresh ones.
fn in_place(levels: u32, calls: &[u32], from: u32) -> u32 {
    let mut tables = entries::fresh(levels).tables;
    pace_sums::make_calls(calls, from, |q| entries::call_in_place(&mut tables, q))
}

// The calls on tables by value.
fn by_value(levels: u32, calls: &[u32], from: u32) -> u32 {
    let mut tables = entries::fresh(levels).tables;
    pace_sums::make_calls(calls, from, |q| {
        let after = entries::call(tables, q);
        tables = after.tables;
        Said {
            answer: after.answer,
            thread: after.thread,
        }
    })
}

fn main(rt: HostRuntime) {
    if streams::words(&rt) < 3 {
        pace_sums::measure(&rt, in_place);
    } else {
        pace_sums::measure(&rt, by_value);
    }
}
