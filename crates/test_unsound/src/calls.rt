// A call that sound tables accept, on sound tables and on unsound ones, each time with its line.
use super::changes::{Row, emptied, joined, with_word};
use rules::{Call, Tables};
use test_calls::print::print;
use test_calls::put::{put_call, put_rest};
use test_calls::trial::try_call;
use test_same::same_tables;

// Interrupt in, which any thread may call.
const INTERRUPT_IN: Call = Call {
    number: 0x74,
    a: 0,
    b: 0,
    c: 0,
    d: 0,
};

// The trials of a rule: the tables whose changes are tried, and how many calls were made so far.
#[derive(Clone, Copy)]
pub(crate) struct Trials<'a> {
    rt: &'a HostRuntime,
    tables: Tables,
    made: u64,
}

// The heading of a rule, of which no call was made so far.
pub(crate) fn begin<'a>(rt: &'a HostRuntime, name: &[u8], tables: Tables) -> Trials<'a> {
    print(rt, |out| put_rest(out, 0, name));
    Trials {
        rt,
        tables,
        made: 0,
    }
}

impl<'a> Trials<'a> {
    // The next call, by both entries: its line, and whether every table is as it was.
    pub(crate) fn interrupt_in(&mut self, t: Tables) {
        self.made = self.made.wrapping_add(1);
        let n = self.made;
        let tried = try_call(t, t, INTERRUPT_IN);
        let note = if same_tables(t, tried.in_place.tables) {
            b" same".as_slice()
        } else {
            b" changed"
        };
        print(self.rt, |out| put_call(out, n, tried, note));
    }

    // The call on the tables with each of these changes.
    fn each<T: Copy, F: Fn(Tables, T) -> Tables>(&mut self, items: &[T], change: F)
        requires { F.IsAlwaysCallable change }
    {
        let t = self.tables;
        for x in items {
            self.interrupt_in(change(t, *x));
        }
    }

    // The call with each of these values at each of these words of a row.
    pub(crate) fn row(&mut self, row: Row, words: &[usize], values: &[u32]) {
        for f in words {
            let f = *f;
            self.each(values, |t, x| with_word(t, row, f, x));
        }
    }

    // The call with a value at a word of each of these tasks.
    pub(crate) fn tasks(&mut self, tasks: &[usize], f: usize, x: u32) {
        self.each(tasks, |t, i| with_word(t, Row::Task(i), f, x));
    }

    // The call with each of these as one more at the end of line j.
    pub(crate) fn joined(&mut self, j: usize, who: &[u32]) {
        self.each(who, |t, x| joined(t, j, x));
    }

    // The call with nobody in one of these lines.
    pub(crate) fn emptied(&mut self, lines: &[usize]) {
        self.each(lines, |t, j| emptied(t, j));
    }
}

// The call on sound tables, which it changes.
pub(crate) fn try_sound(rt: &HostRuntime, name: &[u8], t: Tables) {
    let mut trials = begin(rt, name, t);
    trials.interrupt_in(t);
}
