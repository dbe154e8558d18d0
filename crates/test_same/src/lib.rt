// Whether two answers, two threads or two sets of tables are the same, to the last byte.
#![tactic(auto)]

ghost use Rattle.std.specs.Prelude.{◌≡◌};
ghost use Rattle.test_same.specs.Tells.{Tells};

use rules::{Answer, Tables, Thread};

// Whether each table of `t` is that of `u`.
pub fn same_tables(t: Tables, u: Tables) -> bool
    ensures { Tells result (t ≡ u) }
{
    t == u
}

pub fn same_answer(a: Answer, b: Answer) -> bool
    ensures { Tells result (a ≡ b) }
{
    a == b
}

pub fn same_thread(a: Thread, b: Thread) -> bool
    ensures { Tells result (a ≡ b) }
{
    a == b
}
