// Lines of a lent table, read and changed in place: how many stand in one, who, the ways in and out; and in which line a task stands. Every function is
// total: what is not there reads 0, and writing it changes nothing.
#![tactic(auto)]

ghost use Rattle.std.specs.Prelude.{◌≡◌, length, get_or};
ghost use Rattle.rules.specs.Lines.{line, front_of, out_of, entered, joined, home_of, anyone};
ghost use Rattle.rules.specs.Swis.{top};

use basics::least;
use rules::numbers::{
    ACTIVE_LINE, AT_EVENT, AT_SEMAPHORE, EVENT_LINES, LINE_COUNT, LINE_MOST, LINE_MOST_U8,
    LINE_WIDTH, MAILBOX_LINES, NOWHERE, READING, READY, READY_LINES, WRITING,
};
use rules::{Lines, Task};

// How many stand in line j.
pub fn len(lines: &Lines, j: usize) -> usize
    ensures { result ≡ length (line lines.now j) }
{
    if j < LINE_COUNT {
        return least(basics::wide(lines[j * LINE_WIDTH]), LINE_MOST);
    }
    0
}

// The one behind k others in line j; 0 where there is none.
pub fn member(lines: &Lines, j: usize, k: usize) -> u8
    ensures { result ≡ get_or (line lines.now j) k 0 }
{
    if k < len(lines, j) {
        return lines[j * LINE_WIDTH + 1 + k];
    }
    0
}

// The one at the front of line j; 0 where nobody stands there.
pub fn first(lines: &Lines, j: usize) -> u8
    ensures { result ≡ front_of lines.now j }
{
    member(lines, j, 0)
}

// x out of line j wherever it stands, the rest moved up.
pub fn leave(lines: &mut Lines, j: usize, x: u8)
    ensures { lines.new ≡ out_of j x lines.old }
{
    if j < LINE_COUNT {
        let at = j * LINE_WIDTH;
        let n = len(lines, j);
        let mut m: u8 = 0;
        for k in 0..n {
            let y = lines[at + 1 + k];
            lines[at + 1 + k] = 0;
            if y != x {
                lines[at + 1 + basics::wide(m)] = y;
                m += 1;
            }
        }
        lines[at] = m;
    }
}

// x at the back of line j; a full line stays as it is.
#[tactic(auto, unfolding(rules::specs::Lines::entered))]
pub fn join(lines: &mut Lines, j: usize, x: u8)
    ensures { lines.new ≡ joined j x lines.old }
{
    let n = len(lines, j);
    insert(lines, j, n, x);
}

// x into line j behind the first `place`, behind all where fewer stand there; a full line stays as it is.
pub fn insert(lines: &mut Lines, j: usize, place: usize, x: u8)
    ensures { lines.new ≡ entered (λ xs. place) j x lines.old }
{
    if j < LINE_COUNT {
        let at = j * LINE_WIDTH;
        let n = lines[at];
        if n < LINE_MOST_U8 {
            let end = basics::wide(n);
            let mut carry = x;
            for k in least(place, end)..end {
                let y = lines[at + 1 + k];
                lines[at + 1 + k] = carry;
                carry = y;
            }
            lines[at + 1 + end] = carry;
            lines[at] = n + 1;
        }
    }
}

// The line in which a task with this row stands. Stays 255 for none, and no Option: so the definition says, and there no line is changed.
#[tactic(auto, unfolding(rules::specs::Lines::home_by))]
pub fn home_of(k: Task) -> usize
    ensures { result ≡ home_of k }
{
    match k.mode {
        READY => READY_LINES + k.priority as usize,
        AT_SEMAPHORE => k.object as usize,
        AT_EVENT => EVENT_LINES + k.object as usize,
        READING | WRITING => MAILBOX_LINES + k.object as usize,
        _ => NOWHERE,
    }
}

// The top active Swi, the last to start; 0 where none is active.
#[tactic(auto, unfolding(rules::specs::Swis::top))]
pub fn top(lines: &Lines) -> u8
    ensures { result ≡ top lines.now }
{
    let n = len(lines, ACTIVE_LINE);
    member(lines, ACTIVE_LINE, basics::one_less(n))
}

// Someone stands in line j.
pub fn anyone(lines: &Lines, j: usize) -> bool
    ensures { result ≡ anyone lines.now j }
{
    0 < len(lines, j)
}
