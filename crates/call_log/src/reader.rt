// The reader: it holds the lent log and its position. Each function over it is thin, above one on the slice and a number.
ghost use Rattle.std.specs.Prelude.{◌≡◌};
ghost use Rattle.rules.specs.Log.{read_in, read_at, move_to};
ghost use Rattle.call_log.specs.Part.{PartAt};

use rules::Read;

// What stands at a position, and the position after it.
#[derive(Clone, Copy)]
pub struct Step {
    pub found: Read,
    pub at: usize,
}

// In a log, or in a part of a log; the version is that of the log's first record.
pub fn step_in(log: &[u8], at: usize, version: u8) -> Step
    ensures { (result.found ≡ read_in version log.now at) × (result.at ≡ move_to result.found at) }
{
    let found = super::read_in(log, at, version);
    let next = super::move_to(found, at);
    Step { found, at: next }
}

// In a log that is whole.
pub fn step_at(log: &[u8], at: usize) -> Step
    ensures { (result.found ≡ read_at log.now at) × (result.at ≡ move_to result.found at) }
{
    step_in(log, at, super::version_of(log))
}

#[derive(Clone, Copy)]
pub struct Reader<'a> {
    pub log: &'a [u8],
    pub at: usize,
}

impl<'a> Reader<'a> {
    // At the start of a log.
    pub fn new(log: &'a [u8]) -> Reader<'a>
        ensures { (result.log ≡ log.entry) × (result.at ≡ 0) }
    {
        Reader { log, at: 0 }
    }

    // What stands at the position. Only a good record moves it.
    pub fn next(&mut self) -> Read
        ensures { (result ≡ read_at self.old.log.now self.old.at)
            × ((self.new.log ≡ self.old.log) × (self.new.at ≡ move_to result self.old.at)) }
    {
        let step = step_at(self.log, self.at);
        self.at = step.at;
        step.found
    }

    // The sixteen argument bytes of the record whose `start` was found, as that part of the log; an empty part where sixteen are not there.
    pub fn arguments(self, start: usize) -> &'a [u8]
        ensures { PartAt self.entry.log start result }
    {
        super::arguments(self.log, start)
    }
}

// What a reader of the log hands out from `start` on, for callers that need no reader.
pub fn read_arguments<'a>(log: &'a [u8], start: usize) -> &'a [u8]
    ensures { PartAt log.entry start result }
{
    Reader { log, at: 0 }.arguments(start)
}
