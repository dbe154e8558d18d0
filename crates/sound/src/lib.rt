// Whether tables are sound, whatever stands in them: a function for each rule of 'Sound tables'.
#![tactic(auto)]

pub mod objects;
pub mod records;
pub mod standing;

ghost use Rattle.std.specs.Prelude.{◌≡◌, ℕ, ◌+◌, ◌-◌, ◌<◌, ◌≤◌, Bool};
ghost use Rattle.basics.specs.Lists.{all_of};
ghost use Rattle.basics.specs.Find.{all_below};
ghost use Rattle.basics.specs.Rule.{holds};
ghost use Rattle.rules.specs.Lines.{line};
ghost use Rattle.rules.specs.Sound.{dispatch_rule, sound};

use rules::{Lines, State, Swis, Tables};

// Whether each number from `first` on, below n, meets the rule: f is what the rule tells of a number.
// All are asked, also behind one that does not meet it, so that no branch stands between them.
fn each_from<F: Fn(usize) -> bool>(first: usize, n: usize, rule: F) -> bool
    requires { (k : ℕ) → first ≤ k → k < n → F.pre rule k }
    ensures { (f : ℕ → Bool) → ((k : ℕ) → first ≤ k → k < n → (b : Bool) → F.post rule k b → b ≡ f k)
        → result ≡ all_below (n - first) (λ k. f (first + k)) }
{
    let mut ok = true;
    for k in first..n {
        ok = ok & rule(k);
    }
    ok
}

// The same of each number below n.
fn each<F: Fn(usize) -> bool>(n: usize, rule: F) -> bool
    requires { (k : ℕ) → k < n → F.pre rule k }
    ensures { (f : ℕ → Bool) → ((k : ℕ) → k < n → (b : Bool) → F.post rule k b → b ≡ f k)
        → result ≡ all_below n f }
{
    each_from(0, n, rule)
}

// The same of each who stands in line j.
fn each_in<F: Fn(usize) -> bool>(lines: &Lines, j: usize, rule: F) -> bool
    requires { F.IsAlwaysCallable rule }
    ensures { (f : ℕ → Bool) → ((x : ℕ) → x < 256 → (b : Bool) → F.post rule x b → b ≡ f x)
        → result ≡ all_of f (line lines.now j) }
{
    let mut ok = true;
    for k in 0..lines::len(lines, j) {
        ok = ok & rule(basics::wide(lines::member(lines, j, k)));
    }
    ok
}

// The dispatch rule has nothing left to do.
pub fn dispatch_sound(swis: &Swis, lines: &Lines, state: &State) -> bool
    ensures { result ≡ holds (dispatch_rule swis.now lines.now state.now) }
{
    let current = basics::index(state[rules::numbers::CURRENT]);
    let front = basics::wide(dispatch::due::front(lines, state));
    !dispatch::due::swi_due(swis, lines, state)
        & (!dispatch::due::task_due(lines, state) | (current == front))
}

// The tables are sound.
#[tactic(auto, unfolding(rules::specs::Sound::sound))]
pub fn is_sound(t: &Tables) -> bool
    ensures { result ≡ sound t.now }
{
    records::state_sound(&t.tasks, &t.state)
        & records::heap_sound(&t.heap)
        & records::clocks_sound(&t.clocks, &t.swis)
        & records::tasks_sound(&t.tasks, rows::readings::levels(&t.state))
        & standing::lines_sound(&t.lines)
        & standing::members_sound(&t.tasks, &t.swis, &t.lines)
        & standing::task_once(&t.tasks, &t.lines)
        & standing::swi_once(&t.swis, &t.lines)
        & objects::semaphores_sound(&t.semaphores, &t.lines)
        & objects::events_sound(&t.tasks, &t.events, &t.lines)
        & objects::mailboxes_sound(&t.tasks, &t.mailboxes, &t.lines)
        & objects::swis_sound(&t.swis, &t.lines)
        & objects::active_sound(&t.swis, &t.lines)
        & dispatch_sound(&t.swis, &t.lines, &t.state)
}
