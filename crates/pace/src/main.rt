// Makes the calls of the log on standard input with `step`, again and again, and prints a sum over all answers: for measuring.
#![tactic(auto)]

// The calls, from fresh tables of so many levels.
fn one_round(levels: u32, calls: &[u32], from: u32) -> u32 {
    let mut tables = entries::fresh(levels).tables;
    pace_sums::make_calls(calls, from, |q| kernel::step(&mut tables, q))
}

fn main(rt: HostRuntime) {
    pace_sums::measure(&rt, one_round);
}
