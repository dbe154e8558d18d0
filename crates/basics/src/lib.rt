// What has no table: definitions (specs/) and laws (proofs/) on lists, searches and formulas; and numbers widened, one less, the smaller of two.
#![tactic(auto)]

ghost use Rattle.std.specs.Prelude.{◌≡◌, min, ◌<◌, ◌-◌};

// The smaller of two.
pub fn least(a: usize, b: usize) -> usize
    ensures { result ≡ min a b }
{
    a.min(b)
}

// A byte as an index.
pub fn wide(x: u8) -> usize
    ensures { (result ≡ x) × (result < 256) }
{
    usize::from(x)
}

// A word as an index. Stays a cast: std has no From<u32> for usize, and a TryFrom could fail.
pub fn index(x: u32) -> usize
    ensures { result ≡ x }
{
    x as usize
}

// One less; 0 of 0. Stays beside `rows::readings::one_less`: both are names for the library's method, in the type that each's callers have.
pub fn one_less(n: usize) -> usize
    ensures { result ≡ n - 1 }
{
    n.saturating_sub(1)
}
