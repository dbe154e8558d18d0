// A list of calls, five words to a call, and the list of their answers, three words to a call (request No. 4).
#![tactic(auto)]

ghost use Rattle.std.specs.Prelude.{◌≡◌, ◌+◌, min, take};
ghost use Rattle.runs.specs.CallList.{bad_list};
ghost use Rattle.call_lists.specs.CallLists.{call_at, answer_put, answer_at};

use rules::{Answer, Call};

// A call's number and its four arguments.
pub const CALL_WORDS: usize = 5;

// An answer's code, outcome and value.
pub const ANSWER_WORDS: usize = 3;

// A list has at most so many calls.
pub const MOST_CALLS: usize = 256;

// What no call has as its number.
const NO_CALL: u32 = u32::MAX;

// What no answer has as its code.
const NO_CODE: u32 = u32::MAX;

// Whether a list of so many words, with room for so many words of answers, is refused.
#[tactic(auto, unfolding(runs::specs::CallList::bad_list))]
pub fn is_bad(words: usize, room: usize) -> bool
    ensures { result ≡ bad_list words room }
{
    let calls = words / CALL_WORDS;
    (words % CALL_WORDS != 0) | (MOST_CALLS < calls) | (room < calls * ANSWER_WORDS)
}

// Call i of a list; past its last one a call with no call's number.
// Stays a call, no `Option`: the clause says `no_call` (specs/CallLists) there.
#[tactic(auto, unfolding(crate::specs::CallLists::call_at))]
pub fn call_at(calls: &[u32], i: usize) -> Call
    ensures { result ≡ call_at calls.now i }
{
    if calls.len() / CALL_WORDS <= i {
        return Call {
            number: NO_CALL,
            a: 0,
            b: 0,
            c: 0,
            d: 0,
        };
    }
    let k = i * CALL_WORDS;
    Call {
        number: calls[k],
        a: calls[k + 1],
        b: calls[k + 2],
        c: calls[k + 3],
        d: calls[k + 4],
    }
}

// The answer to call i into its three words; no change where there is no room for three.
#[tactic(auto, unfolding(crate::specs::CallLists::answer_put, runs::specs::CallList::words_of))]
pub fn put_answer(answers: &mut [u32], i: usize, answer: Answer)
    ensures { answers.new ≡ answer_put answers.old i answer }
{
    if answers.len() / ANSWER_WORDS <= i {
        return;
    }
    let k = i * ANSWER_WORDS;
    answers[k] = answer.code;
    answers[k + 1] = answer.outcome;
    answers[k + 2] = answer.value;
}

// The answer to call i as it stands in the list of answers; past the last one a code that no answer has.
// Stays an answer, no `Option`: the clause says `no_answer` (specs/CallLists) there.
#[tactic(auto, unfolding(crate::specs::CallLists::answer_at))]
pub fn answer_at(answers: &[u32], i: usize) -> Answer
    ensures { result ≡ answer_at answers.now i }
{
    if answers.len() / ANSWER_WORDS <= i {
        return Answer {
            code: NO_CODE,
            outcome: 0,
            value: 0,
        };
    }
    let k = i * ANSWER_WORDS;
    Answer {
        code: answers[k],
        outcome: answers[k + 1],
        value: answers[k + 2],
    }
}

// The first n words, as that part; all where there are fewer.
pub fn front<'a>(words: &'a [u32], n: usize) -> &'a [u32]
    ensures { (result.now ≡ take n words.now) × (result.ref_ptr ≡ words.entry.ref_ptr) }
{
    &words[..n.min(words.len())]
}

// Where a list ends that begins at a word and has at most `most` of so many words.
pub fn end_of(at: usize, most: usize, words: usize) -> usize
    ensures { result ≡ min (at + most) words }
{
    at.saturating_add(most).min(words)
}
