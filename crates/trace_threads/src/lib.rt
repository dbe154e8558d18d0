// The state, the tasks that changed, the posts that were made, the Swi that was started, and those posted and active.
#![tactic(auto)]

ghost use Rattle.std.specs.Prelude.{◌≡◌, not};
ghost use Rattle.rules.specs.Tables.{task};
ghost use Rattle.trace_changes.specs.Numbers.{PutNumbers, told};
ghost use Rattle.trace_changes.specs.Changes.{state_now, same_task, task_numbers, changed_tasks, post, is_posted, call_posts, call_post, posted_below, clock_post};
ghost use Rattle.trace_changes.specs.Changes.{clock_posts, posts_made, is_started, started_swi, posted_swis};

use rules::numbers::{
    ACTIVE_LINE, CLOCK_ROWS, CURRENT, DEPTH, LEVELS, POSTED, POSTED_LINES, SWI_HIGHEST, SWI_QUEUES,
    TASK_ROWS, TICK, TRIGGER,
};
use rules::{Clocks, Lines, State, Swis, Task, Tasks};
use text::Text;
use trace_changes::Made;
use trace_put::{put, put_each, put_line, put_words, runs_out};

// ---- the state

#[tactic(auto, unfolding(trace_changes::specs::Changes::state_now))]
pub fn put_state(out: &mut Text, at: usize, state: &State) -> usize
    ensures { PutNumbers out.old at (state_now state.now) out.new result }
{
    let now = [
        state[DEPTH],
        state[rules::numbers::SWIS],
        state[rules::numbers::TASKS],
        state[TICK],
        state[CURRENT],
        state[LEVELS],
    ];
    put_words(out, at, &now)
}

// ---- tasks

// Whether nothing of a task changed but its ticks left.
// Stays field by field: `==` would look at the ticks left too, which `same_task` leaves out.
#[tactic(auto, unfolding(trace_changes::specs::Changes::same_task))]
fn same_task(k: Task, l: Task) -> bool
    ensures { result ≡ same_task k l }
{
    (k.mode == l.mode)
        & (k.priority == l.priority)
        & (k.object == l.object)
        & (k.outcome == l.outcome)
        & (k.value == l.value)
}

fn put_task(out: &mut Text, at: usize, i: usize, k: Task) -> usize
    ensures { PutNumbers out.old at (task_numbers i k) out.new result }
{
    let p = put(out, at, i as u64);
    put_words(
        out,
        p,
        &[k.mode, k.priority, k.object, k.left, k.outcome, k.value],
    )
}

// Task i, if it changed.
fn put_if_changed(out: &mut Text, at: usize, before: &Tasks, tasks: &Tasks, i: usize) -> usize
    ensures { PutNumbers out.old at (told (not (same_task (task before.now i) (task tasks.now i))) (task_numbers i (task tasks.now i))) out.new result }
{
    let k = rows::task(tasks, i);
    if same_task(rows::task(before, i), k) {
        return at;
    }
    put_task(out, at, i, k)
}

#[tactic(auto, unfolding(trace_changes::specs::Changes::changed_tasks))]
pub fn put_tasks(out: &mut Text, at: usize, before: &Tasks, tasks: &Tasks) -> usize
    ensures { PutNumbers out.old at (changed_tasks before.now tasks.now) out.new result }
{
    put_each(
        out,
        at,
        TASK_ROWS,
        |out, p, i| put_if_changed(out, p, before, tasks, i),
    )
}

// ---- posts

// A post: the clock, the Swi, and whether it was posted already.
fn put_post(out: &mut Text, at: usize, c: usize, i: u32, already: bool) -> usize
    ensures { PutNumbers out.old at (post c i already) out.new result }
{
    let p = put(out, at, c as u64);
    put_words(out, p, &[i, u32::from(already)])
}

fn is_posted(swis: &Swis, i: u32) -> bool
    ensures { result ≡ is_posted swis.now i }
{
    rows::swi(swis, i as usize, POSTED) != 0
}

// Whether an accepted call with this number posts Swi a: 14 and 16 only if its trigger is now 0.
#[tactic(auto, unfolding(trace_changes::specs::Changes::call_posts))]
fn call_posts(swis: &Swis, number: u32, a: u32, b: u32) -> bool
    ensures { result ≡ call_posts swis.now number a b }
{
    let trigger = rows::swi(swis, a as usize, TRIGGER);
    (number == 0x12)
        | (number == 0x13)
        | (number == 0x15)
        | ((number == 0x14) & (swis::posts::one_down(trigger) == 0))
        | ((number == 0x16) & (trigger & !b == 0))
}

#[tactic(auto, unfolding(trace_changes::specs::Changes::call_post))]
fn put_call_post(out: &mut Text, at: usize, swis: &Swis, number: u32, a: u32, b: u32) -> usize
    ensures { PutNumbers out.old at (call_post swis.now number a b) out.new result }
{
    if call_posts(swis, number, a, b) {
        return put_post(out, at, CLOCK_ROWS, a, is_posted(swis, a));
    }
    at
}

// Whether a clock below c runs out and posts Swi i.
fn posted_below(clocks: &Clocks, i: u32, c: usize) -> bool
    ensures { result ≡ posted_below clocks.now i c }
{
    (0..c).any(|n| {
        let k = rows::clock(clocks, n);
        runs_out(k) & (k.swi == i)
    })
}

// The post of clock c, if it runs out.
#[tactic(auto, unfolding(trace_changes::specs::Changes::clock_post))]
fn put_clock_post(out: &mut Text, at: usize, clocks: &Clocks, swis: &Swis, c: usize) -> usize
    ensures { PutNumbers out.old at (clock_post clocks.now swis.now c) out.new result }
{
    let k = rows::clock(clocks, c);
    if runs_out(k) {
        let already = is_posted(swis, k.swi) | posted_below(clocks, k.swi, c);
        return put_post(out, at, c, k.swi, already);
    }
    at
}

#[tactic(auto, unfolding(trace_changes::specs::Changes::clock_posts))]
fn put_clock_posts(out: &mut Text, at: usize, clocks: &Clocks, swis: &Swis) -> usize
    ensures { PutNumbers out.old at (clock_posts clocks.now swis.now) out.new result }
{
    put_each(
        out,
        at,
        CLOCK_ROWS,
        |out, p, c| put_clock_post(out, p, clocks, swis, c),
    )
}

// The posts of a call, by the tables before it.
#[tactic(auto, unfolding(trace_changes::specs::Changes::posts_made))]
pub fn put_posts(out: &mut Text, at: usize, made: Made, clocks: &Clocks, swis: &Swis) -> usize
    ensures { PutNumbers out.old at (posts_made made clocks.now swis.now) out.new result }
{
    let answer = made.answer;
    if answer.code != 0 {
        return at;
    }
    let asked = made.asked;
    if asked.number == 0x76 {
        return put_clock_posts(out, at, clocks, swis);
    }
    put_call_post(out, at, swis, asked.number, asked.a, asked.b)
}

// ---- Swis

// Whether dispatch started a Swi.
fn is_started(made: Made, before: &Lines, lines: &Lines) -> bool
    ensures { result ≡ is_started made before.now lines.now }
{
    let answer = made.answer;
    let asked = made.asked;
    let ended = usize::from(asked.number == 0x17);
    (answer.code == 0) & (lines::len(before, ACTIVE_LINE) < lines::len(lines, ACTIVE_LINE) + ended)
}

#[tactic(auto, unfolding(trace_changes::specs::Changes::started_swi))]
pub fn put_started(out: &mut Text, at: usize, made: Made, before: &Lines, lines: &Lines) -> usize
    ensures { PutNumbers out.old at (started_swi made before.now lines.now) out.new result }
{
    if is_started(made, before, lines) {
        return put(out, at, lines::top(lines) as u64);
    }
    at
}

// The posted Swis, the highest priority first.
#[tactic(auto, unfolding(trace_changes::specs::Changes::posted_swis))]
pub fn put_posted(out: &mut Text, at: usize, lines: &Lines) -> usize
    ensures { PutNumbers out.old at (posted_swis lines.now) out.new result }
{
    put_each(out, at, SWI_QUEUES, |out, p, k| {
        put_line(out, p, lines, POSTED_LINES + (SWI_HIGHEST - k))
    })
}
