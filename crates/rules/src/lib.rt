// Document 01 as types. A table is an array of numbers, a row for each object and a word for each field; what the numbers
// mean, and what each call does to them, is said in specs/: a file for each section of the document, and Rows, Lines, Waits
// and Step for what the sections share. Modes, kinds and who calls stay words, and no enums: the definitions answer any word,
// and any may stand in a table.
#![tactic(auto)]

ghost use Rattle.std.specs.Prelude.{◌≡◌};
ghost use Rattle.rules.specs.Answer.{answer};
ghost use Rattle.rules.specs.Refusals.{code};

pub mod numbers;

// 32 rows of 8: mode, priority, object, left, held, mask, outcome, value.
pub type Tasks = [u32; numbers::TASK_WORDS];

// 81 rows of 33: how many stand in the line, who, the one at the front first, and zeros.
pub type Lines = [u8; numbers::LINE_BYTES];

// 16 rows of 3: used, kind, count.
pub type Semaphores = [u32; numbers::SEMAPHORE_WORDS];

// 8 rows of 2: used, bits.
pub type Events = [u32; numbers::EVENT_WORDS];

// 8 rows of 10: capacity, messages there, and eight words, the oldest first.
pub type Mailboxes = [u32; numbers::MAILBOX_WORDS];

// 16 rows of 6: used, priority, initial, trigger, posted, taken.
pub type Swis = [u32; numbers::SWI_WORDS];

// 16 rows of 5: used, swi, first, period, left.
pub type Clocks = [u32; numbers::CLOCK_WORDS];

// An entry for each of the 256 units: 0 free, 1 first of a block, 2 later in one.
pub type Heap = [u8; numbers::HEAP_UNITS];

// One row of 6: depth, Swis on, tasks on, tick, current, levels.
pub type State = [u32; numbers::STATE_WIDTH];

// All tables by value: what goes in with a call, and what comes out.
#[derive(Clone, Copy, Debug, PartialEq, Eq)]
pub struct Tables {
    pub tasks: Tasks,
    pub lines: Lines,
    pub semaphores: Semaphores,
    pub events: Events,
    pub mailboxes: Mailboxes,
    pub swis: Swis,
    pub clocks: Clocks,
    pub heap: Heap,
    pub state: State,
}

// A task's row, while it is worked on.
#[derive(Clone, Copy, Debug, PartialEq, Eq)]
pub struct Task {
    pub mode: u32,
    pub priority: u32,
    pub object: u32,
    pub left: u32,
    pub held: u32,
    pub mask: u32,
    pub outcome: u32,
    pub value: u32,
}

// A clock's row.
#[derive(Clone, Copy, Debug, PartialEq, Eq)]
pub struct Clock {
    pub used: u32,
    pub swi: u32,
    pub first: u32,
    pub period: u32,
    pub left: u32,
}

// A clock after a tick, and whether its Swi is posted. Stays a flag beside it: the clock is stored either way.
#[derive(Clone, Copy, Debug, PartialEq, Eq)]
pub struct AgedClock {
    pub clock: Clock,
    pub fired: bool,
}

// A call: its number and its four arguments.
#[derive(Clone, Copy, Debug, PartialEq, Eq)]
pub struct Call {
    pub number: u32,
    pub a: u32,
    pub b: u32,
    pub c: u32,
    pub d: u32,
}

// What a call answers.
#[derive(Clone, Copy, Debug, PartialEq, Eq)]
pub struct Answer {
    pub code: u32,
    pub outcome: u32,
    pub value: u32,
}

// Why a call is refused: what 01's codes from 1 on stand for, and No. 2's code 11.
#[derive(Clone, Copy, Debug, PartialEq, Eq)]
pub enum Refusal {
    UnknownCall,
    WrongContext,
    OutOfRange,
    BadArgument,
    Forbidden,
    NoneFree,
    AtEnd,
    NoRoom,
    SwitchedOff,
    Unsound,
    NotInUse,
}

// Its code in 01.
impl From<Refusal> for u32 {
    ghost from_gives = { λ r n. n ≡ code r };

    fn from(refusal: Refusal) -> u32 {
        match refusal {
            Refusal::UnknownCall => 1,
            Refusal::WrongContext => 2,
            Refusal::OutOfRange => 3,
            Refusal::BadArgument => 4,
            Refusal::Forbidden => 5,
            Refusal::NoneFree => 6,
            Refusal::AtEnd => 7,
            Refusal::NoRoom => 8,
            Refusal::SwitchedOff => 9,
            Refusal::Unsound => 10,
            Refusal::NotInUse => 11,
        }
    }
}

// A refusal has outcome 0 and value 0.
impl From<Refusal> for Answer {
    ghost from_gives = { λ r a. a ≡ answer (code r) 0 0 };

    fn from(refusal: Refusal) -> Answer {
        Answer {
            code: u32::from(refusal),
            outcome: 0,
            value: 0,
        }
    }
}

// Who runs.
#[derive(Clone, Copy, Debug, PartialEq, Eq)]
pub enum Thread {
    Task(u32),
    Swi(u32),
    Interrupt,
}

// What a call leaves: the next tables, its answer and the running thread.
#[derive(Clone, Copy, Debug, PartialEq, Eq)]
pub struct Step {
    pub tables: Tables,
    pub answer: Answer,
    pub thread: Thread,
}

// What stands at a position of a log: a record, with its call number and where its sixteen argument bytes start; nothing more; or a
// fault, with the record's byte offset. Stays an enum of its own, and no Result of an Option: rules/specs/Log tells of these five.
#[derive(Clone, Copy, Debug, PartialEq, Eq)]
pub enum Read {
    Record { number: u8, start: usize },
    End,
    Cut(usize),
    Length(usize),
    Version(usize),
}
