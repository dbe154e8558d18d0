// The numbers of document 01 by name, for code; specs/ has the same by the same words. Each stands here once: what follows from another is said by it,
// and so is the same number in another type.

// ---- how many objects each table has, as a number that a call names
pub const TASK_COUNT: u32 = 32;

pub const SWI_COUNT: u32 = 16;

pub const SEMAPHORE_COUNT: u32 = 16;

pub const EVENT_COUNT: u32 = 8;

pub const MAILBOX_COUNT: u32 = 8;

pub const CLOCK_COUNT: u32 = 16;

// as rows of the table
pub const TASK_ROWS: usize = TASK_COUNT as usize;

pub const SWI_ROWS: usize = SWI_COUNT as usize;

pub const SEMAPHORE_ROWS: usize = SEMAPHORE_COUNT as usize;

pub const EVENT_ROWS: usize = EVENT_COUNT as usize;

pub const MAILBOX_ROWS: usize = MAILBOX_COUNT as usize;

pub const CLOCK_ROWS: usize = CLOCK_COUNT as usize;

// ---- how many words a row has
pub const TASK_WIDTH: usize = 8;

pub const SWI_WIDTH: usize = 6;

pub const SEMAPHORE_WIDTH: usize = 3;

pub const EVENT_WIDTH: usize = 2;

pub const MAILBOX_WIDTH: usize = 10;

pub const CLOCK_WIDTH: usize = 5;

pub const STATE_WIDTH: usize = 6;

// ---- both counted in a byte, for what is said of any table
pub const TASK_ROWS_U8: u8 = TASK_COUNT as u8;

pub const SWI_ROWS_U8: u8 = SWI_COUNT as u8;

pub const SEMAPHORE_ROWS_U8: u8 = SEMAPHORE_COUNT as u8;

pub const EVENT_ROWS_U8: u8 = EVENT_COUNT as u8;

pub const MAILBOX_ROWS_U8: u8 = MAILBOX_COUNT as u8;

pub const CLOCK_ROWS_U8: u8 = CLOCK_COUNT as u8;

pub const TASK_WIDTH_U8: u8 = TASK_WIDTH as u8;

pub const SWI_WIDTH_U8: u8 = SWI_WIDTH as u8;

pub const SEMAPHORE_WIDTH_U8: u8 = SEMAPHORE_WIDTH as u8;

pub const EVENT_WIDTH_U8: u8 = EVENT_WIDTH as u8;

pub const MAILBOX_WIDTH_U8: u8 = MAILBOX_WIDTH as u8;

pub const CLOCK_WIDTH_U8: u8 = CLOCK_WIDTH as u8;

// ---- how many words a table has, and how many bytes the lines have: rows by words
pub const TASK_WORDS: usize = TASK_ROWS * TASK_WIDTH;

pub const SWI_WORDS: usize = SWI_ROWS * SWI_WIDTH;

pub const SEMAPHORE_WORDS: usize = SEMAPHORE_ROWS * SEMAPHORE_WIDTH;

pub const EVENT_WORDS: usize = EVENT_ROWS * EVENT_WIDTH;

pub const MAILBOX_WORDS: usize = MAILBOX_ROWS * MAILBOX_WIDTH;

pub const CLOCK_WORDS: usize = CLOCK_ROWS * CLOCK_WIDTH;

pub const LINE_BYTES: usize = LINE_COUNT * LINE_WIDTH;

// ---- the words of a row
// of a semaphore, an event, a Swi, a clock
pub const USED: usize = 0;

// of a task
pub const MODE: usize = 0;

pub const TASK_PRIORITY: usize = 1;

pub const OBJECT: usize = 2;

pub const TASK_LEFT: usize = 3;

pub const HELD: usize = 4;

pub const MASK: usize = 5;

pub const OUTCOME: usize = 6;

pub const VALUE: usize = 7;

// of a semaphore
pub const KIND: usize = 1;

pub const COUNT: usize = 2;

// of an event
pub const BITS: usize = 1;

// of a mailbox: its capacity, how many messages it has, and the oldest of them
pub const CAPACITY: usize = 0;

pub const MESSAGES: usize = 1;

pub const OLDEST: usize = 2;

// of a Swi
pub const PRIORITY: usize = 1;

pub const INITIAL: usize = 2;

pub const TRIGGER: usize = 3;

pub const POSTED: usize = 4;

pub const TAKEN: usize = 5;

// of a clock
pub const CLOCK_SWI: usize = 1;

pub const CLOCK_FIRST: usize = 2;

pub const PERIOD: usize = 3;

pub const CLOCK_LEFT: usize = 4;

// of the state
pub const DEPTH: usize = 0;

pub const SWIS: usize = 1;

pub const TASKS: usize = 2;

pub const TICK: usize = 3;

pub const CURRENT: usize = 4;

pub const LEVELS: usize = 5;

// ---- the modes of a task
pub const NOT_IN_USE: u32 = 0;

pub const READY: u32 = 1;

pub const SLEEPING: u32 = 2;

pub const AT_SEMAPHORE: u32 = 3;

pub const AT_EVENT: u32 = 4;

pub const READING: u32 = 5;

pub const WRITING: u32 = 6;

pub const TERMINATED: u32 = 7;

pub const INACTIVE: u32 = 8;

// ---- who calls: T the running task, S the running Swi, I an interrupt
pub const T: u32 = 0;

pub const S: u32 = 1;

pub const I: u32 = 2;

// ---- outcomes
pub const DONE: u32 = 0;

pub const NOT_MET: u32 = 1;

pub const NOW_WAITING: u32 = 2;

// ---- the lines: how many may stand in one, how many bytes it has, the first of each kind, and how many there are
pub const LINE_MOST: usize = TASK_ROWS;

pub const LINE_MOST_U8: u8 = LINE_MOST as u8;

// one more than may stand in a line
pub const LINE_END: u8 = LINE_MOST_U8 + 1;

pub const LINE_WIDTH: usize = 1 + LINE_MOST;

pub const SEMAPHORE_LINES: usize = 0;

pub const MAILBOX_LINES: usize = SEMAPHORE_LINES + SEMAPHORE_ROWS;

pub const EVENT_LINES: usize = MAILBOX_LINES + MAILBOX_ROWS;

pub const POSTED_LINES: usize = EVENT_LINES + EVENT_ROWS;

pub const ACTIVE_LINE: usize = POSTED_LINES + SWI_QUEUES;

pub const READY_LINES: usize = ACTIVE_LINE + 1;

pub const LINE_COUNT: usize = READY_LINES + MOST_LEVELS as usize;

// two of them counted in a byte
pub const SEMAPHORE_LINES_U8: u8 = SEMAPHORE_LINES as u8;

pub const EVENT_LINES_U8: u8 = EVENT_LINES as u8;

// the byte at which the first ready queue begins
pub const READY_LINES_AT: usize = READY_LINES * LINE_WIDTH;

// a number that is no line's
pub const NOWHERE: usize = 255;

// ---- priorities and levels
// priority -1
pub const MINUS_ONE: u32 = u32::MAX;

pub const FEW_LEVELS: u32 = 16;

// the queues of so many levels, one for each
pub const FEW_QUEUES: usize = FEW_LEVELS as usize;

pub const MOST_LEVELS: u32 = 32;

pub const SWI_LEVELS: u32 = 16;

pub const SWI_QUEUES: usize = SWI_LEVELS as usize;

// the highest of them
pub const SWI_HIGHEST: usize = SWI_QUEUES - 1;

// ---- limits, counts, messages, depth, the heap
// a limit without end
pub const FOREVER: u32 = u32::MAX;

// kinds of semaphores, and the first of those that are served by priority
pub const KIND_COUNT: u32 = 4;

pub const BY_PRIORITY: u32 = 2;

// how far a counting semaphore's count goes
pub const COUNT_MOST: u32 = 65535;

// how many messages a mailbox may have: as its capacity, and as places of its row; and one more than its most capacity
pub const MAILBOX_MOST: u32 = 8;

pub const MAILBOX_PLACES: usize = MAILBOX_MOST as usize;

pub const CAPACITY_END: u32 = MAILBOX_MOST + 1;

pub const MOST_DEPTH: u32 = 8;

// one more than that
pub const DEPTH_END: u32 = MOST_DEPTH + 1;

pub const HEAP_UNITS: usize = 256;

pub const LAST_UNIT: usize = HEAP_UNITS - 1;

// how many bytes all units have
pub const HEAP_BYTES: u32 = HEAP_UNITS as u32 * UNIT_BYTES;

pub const UNIT_BYTES: u32 = 8;

pub const UNIT_WIDTH: usize = UNIT_BYTES as usize;

// one byte less than a unit: with so many more, bytes are rounded up to units
pub const UNIT_LESS_ONE: usize = UNIT_WIDTH - 1;

// a unit's entry, and how many entries there are
pub const FREE: u8 = 0;

pub const FIRST_OF: u8 = 1;

pub const LATER_IN: u8 = 2;

pub const ENTRY_COUNT: u8 = 3;
