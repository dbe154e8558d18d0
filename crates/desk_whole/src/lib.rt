// The replay of a log that is whole in memory, as text in a lent buffer. It goes by the turns of `desk`, as that of a log that is read does.
#![tactic(auto)]

ghost use Rattle.std.specs.Prelude.{◌+◌, length, take};
ghost use Rattle.text.specs.Put.{PutIn};
ghost use Rattle.desk_whole.specs.Printed.{Printed};

use desk::Part;
use kernel::SafeTables;
use text::Text;

// The next part of a log of which this is left: as much as has room behind the bytes that wait; how many bytes came.
fn next_part(part: &mut Part, held: usize, rest: &[u8]) -> usize
    ensures { PutIn 2560 part.old held rest.now part.new (held + result) }
{
    text::put_in(part, held, rest) - held
}

// The text of a turn behind those before it, as far as it fits.
fn put_turn(out: &mut [u8], at: usize, text: &Text, len: usize) -> usize
    ensures { PutIn (length out.old) out.old at (take len text.now) out.new result }
{
    text::put_in(out, at, text::front(text, len))
}

// Replays a log, part by part, until nothing more comes or it has ended at a fault: its text stands in front of the buffer then, as far as it fits.
// Answers how many bytes were put.
pub fn replay_log(log: &[u8], out: &mut [u8]) -> usize
    ensures { Printed log.now out.old out.new result }
{
    let mut t = SafeTables {
        tables: entries::fresh(rules::numbers::FEW_LEVELS).tables,
    };
    let mut part = [0u8; 2560];
    let mut text = [0u8; 16384];
    let mut p = desk::begun();
    let mut rest = log;
    let mut at = 0;
    // Stays a `while`: a part takes as many bytes as have room behind those that wait, and a fault may end it before the log.
    while !p.ended {
        let more = next_part(&mut part, p.held, rest);
        p = desk::replay_part(&mut t, &mut part, more, p, &mut text);
        at = put_turn(out, at, &text, p.len);
        rest = &rest[more..];
    }
    at
}
