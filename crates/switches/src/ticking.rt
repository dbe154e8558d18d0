// The tick: the count, then the clocks in rising number, then the tasks in rising number; and call 76.
ghost use Rattle.std.specs.Prelude.{◌≡◌};
ghost use Rattle.rules.specs.Tick.{posted_if, clock_tick, clocks_ticked, one_less, ended_with, task_tick, tasks_ticked, ticked, tick_call, clock_tables, tick_tables};
ghost use Rattle.switches.specs.Still.{clocks_still, eight_still, eight_tick};
ghost use Rattle.rules.specs.Answer.{with_answer, answered, code_of, ◌by◌};
ghost use Rattle.rules.specs.Swis.{swi_queues};
ghost use Rattle.rules.specs.Lines.{task_queues};
ghost use Rattle.rules.specs.Refusals.{answer_said, code_said};

use rules::numbers::{CLOCK_LEFT, CLOCK_ROWS, DONE, NOT_MET, SLEEPING, TASK_LEFT, TICK};
use rules::{Answer, Call, Clocks, Lines, Refusal, State, Swis, Task, Tasks};

// The Swi of a clock that has come to 0 is posted.
pub fn post_if(fired: bool, swis: &mut Swis, lines: &mut Lines, i: u32)
    ensures { swi_queues swis.new lines.new ≡ posted_if fired i (swi_queues swis.old lines.old) }
{
    if fired {
        swis::posts::post_swi(swis, lines, i);
    }
}

// Clock n, one tick older.
#[tactic(auto, unfolding(rules::specs::Tick::clock_tick))]
pub fn clock_tick(clocks: &mut Clocks, swis: &mut Swis, lines: &mut Lines, n: usize)
    ensures { clock_tables clocks.new swis.new lines.new ≡ clock_tick (clock_tables clocks.old swis.old lines.old) n }
{
    let k = rows::clock(clocks, n);
    if k.left == 0 {
        return;
    }
    let older = clocks::ageing::age_one(k);
    rows::set_clock(clocks, n, older.clock);
    post_if(older.fired, swis, lines, k.swi);
}

// No clock has ticks left. The words are put together first, so that one test serves all sixteen.
pub fn clocks_still(clocks: &Clocks) -> bool
    ensures { result ≡ clocks_still clocks.now }
{
    let mut left = 0;
    for n in 0..CLOCK_ROWS {
        left |= rows::clock_word(clocks, n, CLOCK_LEFT);
    }
    left == 0
}

// All clocks, one tick older: nothing to do where none has ticks left.
pub fn clocks_tick(clocks: &mut Clocks, swis: &mut Swis, lines: &mut Lines)
    ensures { clock_tables clocks.new swis.new lines.new ≡ clocks_ticked clocks.old swis.old lines.old }
{
    if clocks_still(clocks) {
        return;
    }
    for n in 0..CLOCK_ROWS {
        clock_tick(clocks, swis, lines, n);
    }
}

// A task's row with one tick less.
pub fn one_less(k: Task) -> Task
    ensures { result ≡ one_less k }
{
    Task {
        left: rows::readings::one_less(k.left),
        ..k
    }
}

// What a wait that ends at this tick leaves: a sleep is done, a wait expired.
pub fn ended_with(mode: u32) -> u32
    ensures { result ≡ ended_with mode }
{
    if mode == SLEEPING {
        return DONE;
    }
    NOT_MET
}

// Task i, one tick older.
#[tactic(auto, unfolding(rules::specs::Tick::task_tick, rules::specs::Tables::task))]
pub fn task_tick(tasks: &mut Tasks, lines: &mut Lines, i: u32)
    ensures { task_queues tasks.new lines.new ≡ task_tick (task_queues tasks.old lines.old) i }
{
    let left = rows::task_word(tasks, i as usize, TASK_LEFT);
    if left == 0 {
        return;
    }
    let k = rows::task(tasks, i as usize);
    if left == 1 {
        moves::wake(tasks, lines, i, ended_with(k.mode), 0);
        return;
    }
    rows::set_task(tasks, i as usize, one_less(k));
}

// None of the eight tasks from 8 g on has ticks left: one test for them all.
pub fn eight_still(tasks: &Tasks, g: u8) -> bool
    ensures { result ≡ eight_still tasks.now g }
{
    let at = (g as usize) * 8;
    let mut left = 0;
    for k in 0..8 {
        left |= rows::task_word(tasks, at + k, TASK_LEFT);
    }
    left == 0
}

// The eight tasks from 8 g on, one tick older: nothing to do where none has ticks left.
pub fn eight_tick(tasks: &mut Tasks, lines: &mut Lines, g: u8)
    ensures { task_queues tasks.new lines.new ≡ eight_tick (task_queues tasks.old lines.old) g }
{
    if eight_still(tasks, g) {
        return;
    }
    let at = (g as u32) * 8;
    for k in 0..8 {
        task_tick(tasks, lines, at + k);
    }
}

// All tasks, one tick older, by eights.
pub fn tasks_tick(tasks: &mut Tasks, lines: &mut Lines)
    ensures { task_queues tasks.new lines.new ≡ tasks_ticked tasks.old lines.old }
{
    for g in 0..4 {
        eight_tick(tasks, lines, g);
    }
}

// The tick. The tables stay a list: it says which of them a tick may change.
#[tactic(auto, unfolding(rules::specs::Tick::ticked))]
pub fn tick(
    tasks: &mut Tasks,
    lines: &mut Lines,
    swis: &mut Swis,
    clocks: &mut Clocks,
    state: &mut State,
)
    ensures { tick_tables tasks.new lines.new swis.new clocks.new state.new ≡ ticked (tick_tables tasks.old lines.old swis.old clocks.old state.old) }
{
    state[TICK] = std::num::wrapping_add_u32(state[TICK], 1);
    clocks_tick(clocks, swis, lines);
    tasks_tick(tasks, lines);
}

// 76 tick, on the tables that a tick may change.
pub fn tick_call(
    tasks: &mut Tasks,
    lines: &mut Lines,
    swis: &mut Swis,
    clocks: &mut Clocks,
    state: &mut State,
    x: u32,
    q: Call,
) -> Result<Answer, Refusal>
    ensures leaves { with_answer (answer_said result) (tick_tables tasks.new lines.new swis.new clocks.new state.new)
        ≡ answered (tick_tables tasks.old lines.old swis.old clocks.old state.old) (tick_call (tick_tables tasks.old lines.old swis.old clocks.old state.old) x by q) }
    ensures tells { code_said result ≡ code_of (tick_call (tick_tables tasks.old lines.old swis.old clocks.old state.old) x by q).cases }
{
    super::state::interrupt_code(x, q)?;
    tick(tasks, lines, swis, clocks, state);
    Ok(answers::accepted(DONE, 0))
}
