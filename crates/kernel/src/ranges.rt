// The calls of all kinds: the number is matched by ranges.
ghost use Rattle.std.specs.Prelude.{◌≡◌};
ghost use Rattle.rules.specs.Answer.{with_answer, answered, code_of, ◌by◌};
ghost use Rattle.rules.specs.Dispatch.{context};
ghost use Rattle.rules.specs.Refusals.{answer_said, code_said};
ghost use Rattle.rules.specs.Step.{call_of};

use clocks::clock_call;
use events::event_call;
use heap::heap_call;
use mailboxes::mailbox_call;
use rules::{Answer, Call, Refusal, Tables};
use semaphores::semaphore_call;
use swis::swi_call;
use switches::switch_call;
use tasks::task_call;

// The call by its kind's range of sixteen numbers.
pub fn any_call(t: &mut Tables, q: Call) -> Result<Answer, Refusal>
    ensures leaves { with_answer (answer_said result) t.new
        ≡ answered t.old (call_of t.old (context t.old.lines t.old.state) q.number by q) }
    ensures tells { code_said result ≡ code_of (call_of t.old (context t.old.lines t.old.state) q.number by q).cases }
{
    let x = dispatch::context(&t.lines, &t.state);
    let number = q.number;
    match number {
        0x00..=0x0f => task_call(&mut t.tasks, &mut t.lines, &t.state, x, q),
        0x10..=0x1f => swi_call(&mut t.swis, &mut t.lines, &t.clocks, &t.state, x, q),
        0x20..=0x2f => semaphore_call(
            &mut t.tasks,
            &mut t.lines,
            &mut t.semaphores,
            &t.state,
            x,
            q,
        ),
        0x30..=0x3f => event_call(&mut t.tasks, &mut t.lines, &mut t.events, &t.state, x, q),
        0x40..=0x4f => mailbox_call(&mut t.tasks, &mut t.lines, &mut t.mailboxes, &t.state, x, q),
        0x50..=0x5f => clock_call(&mut t.clocks, &t.swis, x, q),
        0x60..=0x6f => heap_call(&mut t.heap, x, q),
        0x70..=0x7f => switch_call(
            &mut t.tasks,
            &mut t.lines,
            &mut t.swis,
            &mut t.clocks,
            &mut t.state,
            x,
            q,
        ),
        _ => Err(Refusal::UnknownCall),
    }
}
