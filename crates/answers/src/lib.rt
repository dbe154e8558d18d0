// Answers: of a refusal and of an accepted call, and the refusal and the value of a number that names nothing in use.
#![tactic(auto)]

ghost use Rattle.std.specs.Prelude.{◌≡◌};
ghost use Rattle.rules.specs.Answer.{answer, absent_code, unused, named, table_of};
ghost use Rattle.rules.specs.Refusals.{code};

use rules::{Answer, Refusal};

// A refusal: its code, outcome 0 and value 0; `named` puts in the value that codes 3 and 11 have.
pub fn refused(code: u32) -> Answer
    ensures { result ≡ answer code 0 0 }
{
    Answer {
        code,
        outcome: 0,
        value: 0,
    }
}

// Why a call is refused that names object a, in use nowhere in its table of n.
#[tactic(auto, unfolding(rules::specs::Answer::absent_code))]
pub fn absent(a: u32, n: u32) -> Refusal
    ensures { code result ≡ absent_code a n }
{
    if a < n {
        return Refusal::NotInUse;
    }
    Refusal::OutOfRange
}

// The answer to a call as it leaves the core: with codes 3 and 11 its value names the table of the object number.
#[tactic(auto, unfolding(rules::specs::Answer::named))]
pub fn named(number: u32, answer: Answer) -> Answer
    ensures { result ≡ named number answer }
{
    let code = answer.code;
    if code == 0 {
        return answer;
    }
    let outcome = answer.outcome;
    if (code == 3) | (code == 11) {
        return Answer {
            code,
            outcome,
            value: table_of(number),
        };
    }
    answer
}

// The table in which the object number of a call is looked up, if it takes one.
#[tactic(auto, unfolding(rules::specs::Answer::table_of))]
pub fn table_of(number: u32) -> u32
    ensures { result ≡ table_of number }
{
    if number == 0x50 {
        return 2;
    }
    number / 16 + 1
}

// An accepted call's answer.
pub fn accepted(outcome: u32, value: u32) -> Answer
    ensures { result ≡ answer 0 outcome value }
{
    Answer {
        code: 0,
        outcome,
        value,
    }
}

// An argument that the call does not name is not 0; one that it names stands here as 0.
#[tactic(auto, unfolding(rules::specs::Answer::unused))]
pub fn unused(a: u32, b: u32, c: u32, d: u32) -> bool
    ensures { result ≡ unused a b c d }
{
    (a != 0) | (b != 0) | (c != 0) | (d != 0)
}
