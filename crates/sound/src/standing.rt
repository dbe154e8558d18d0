// Who stands where: zeros behind each line, each ready or waiting task and each posted Swi once in
// its own line, and nothing else in a line.
ghost use Rattle.std.specs.Prelude.{◌≡◌, ◌&&◌, ◌*◌, suc, ◌≤◌, eqb, ltb, get_or};
ghost use Rattle.basics.specs.Lists.{count, all_of};
ghost use Rattle.basics.specs.Rule.{holds, ◌is◌, ◌under◌, ◌and◌, ◌gives◌, every};
ghost use Rattle.rules.specs.Rows.{behind};
ghost use Rattle.rules.specs.Tables.{task_count, swi_count};
ghost use Rattle.rules.specs.Lines.{line_count, line_most, line_width, line, task_home, swi_home};
ghost use Rattle.rules.specs.Sound.{home_in, lines_rule, members_rule, once_rule};

use rules::numbers::{
    ACTIVE_LINE, LINE_COUNT, LINE_END, LINE_MOST, LINE_WIDTH, NOWHERE, POSTED, POSTED_LINES,
    PRIORITY, SWI_ROWS, TASK_ROWS,
};
use rules::{Lines, Swis, Task, Tasks};

// ---- the lines

// Zeros stand behind line j, up to its 32 places. False where there is no such line.
// Stays beside that of the mailboxes: the tables are of two types, and what both do is `each_from`.
fn zeros_behind(lines: &Lines, j: usize) -> bool
    ensures { result ≡ (ltb j line_count && all_of (λ x. eqb x 0) (behind line_most lines.now (j * line_width))) }
{
    if j < LINE_COUNT {
        let at = j * LINE_WIDTH;
        let n = basics::least(basics::wide(lines[at]), LINE_MOST);
        return super::each_from(n, LINE_MOST, |k| lines[at + 1 + k] == 0);
    }
    false
}

// No more than 32 stand in line j, and zeros behind them. False where there is no such line.
fn line_sound(lines: &Lines, j: usize) -> bool
    ensures { result ≡ (ltb j line_count
        && holds
        ((get_or lines.now (j * line_width) 0 under suc line_most) and every (behind line_most lines.now (j * line_width)) (λ x. x is 0))) }
{
    if j < LINE_COUNT {
        let n = lines[j * LINE_WIDTH];
        return (n < LINE_END) & zeros_behind(lines, j);
    }
    false
}

// The same of each line.
pub fn lines_sound(lines: &Lines) -> bool
    ensures { result ≡ holds (lines_rule lines.now) }
{
    super::each(LINE_COUNT, |j| line_sound(lines, j))
}

// ---- the line of each task and Swi

// The line in which task i stands; 255 for none.
pub fn task_home(tasks: &Tasks, i: usize) -> usize
    ensures { result ≡ task_home tasks.now i }
{
    lines::home_of(rows::task(tasks, i))
}

// The line in which Swi i stands as a posted one; 255 for none. Stays a number: so `swi_home` of rules/specs says.
#[tactic(auto, unfolding(rules::specs::Lines::swi_home))]
pub fn swi_home(swis: &Swis, i: usize) -> usize
    ensures { result ≡ swi_home swis.now i }
{
    if rows::swi(swis, i, POSTED) == 1 {
        return POSTED_LINES + rows::swi(swis, i, PRIORITY) as usize;
    }
    NOWHERE
}

// ---- nothing else stands in a line

// The line of x: of Swi x where line j is one of posted Swis, else of task x.
fn home_in(tasks: &Tasks, swis: &Swis, j: usize, x: usize) -> usize
    ensures { result ≡ home_in tasks.now swis.now j x }
{
    if (POSTED_LINES <= j) & (j < ACTIVE_LINE) {
        return swi_home(swis, x);
    }
    task_home(tasks, x)
}

// Line j is the line of all who stand there.
fn at_home(tasks: &Tasks, swis: &Swis, lines: &Lines, j: usize) -> bool
    ensures { result ≡ holds (every (line lines.now j) (λ x. home_in tasks.now swis.now j x is j)) }
{
    super::each_in(lines, j, |x| home_in(tasks, swis, j, x) == j)
}

// The same of each line but that of the active Swis.
pub fn members_sound(tasks: &Tasks, swis: &Swis, lines: &Lines) -> bool
    ensures { result ≡ holds (members_rule tasks.now swis.now lines.now) }
{
    super::each(LINE_COUNT, |j| {
        (j == ACTIVE_LINE) | at_home(tasks, swis, lines, j)
    })
}

// ---- each stands once

// How often x stands in line j.
pub fn times(lines: &Lines, j: usize, x: usize) -> usize
    ensures { (result ≡ count x (line lines.now j)) × (result ≤ 32) }
{
    let mut m = 0;
    for k in 0..lines::len(lines, j) {
        m += usize::from(basics::wide(lines::member(lines, j, k)) == x);
    }
    m
}

// Who has a line stands there once.
fn stands_once(lines: &Lines, home: usize, x: usize) -> bool
    ensures { result ≡ holds (home under line_count gives count x (line lines.now home) is 1) }
{
    !(home < LINE_COUNT) | (times(lines, home, x) == 1)
}

// Each ready task stands once in its priority's queue, each that waits at an object once in its
// line.
pub fn task_once(tasks: &Tasks, lines: &Lines) -> bool
    ensures { result ≡ holds (once_rule task_count (task_home tasks.now) lines.now) }
{
    super::each(TASK_ROWS, |i| stands_once(lines, task_home(tasks, i), i))
}

// Each posted Swi stands once in its priority's queue.
pub fn swi_once(swis: &Swis, lines: &Lines) -> bool
    ensures { result ≡ holds (once_rule swi_count (swi_home swis.now) lines.now) }
{
    super::each(SWI_ROWS, |i| stands_once(lines, swi_home(swis, i), i))
}
