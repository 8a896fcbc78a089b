// Where things stand in the state memory, in words of four bytes: specs/Layout.antt in code.
use crate::{MOST_LISTED, MOST_MESSAGES, MOST_PAIRS, MOST_TERMS, NUMBERS};

// ---- the header

pub const CAPACITY: usize = 0;

pub const LIFE: usize = 1;

pub const CLOCK: usize = 2;

pub const OLDEST: usize = 3;

pub const COUNT: usize = 4;

// ---- the ring: how many slots it has, and its columns

pub const SLOTS: usize = MOST_MESSAGES as usize + 1;

pub const SLOT_TIMES: usize = COUNT + 1;

pub const SLOT_SERIALS: usize = SLOT_TIMES + SLOTS;

pub const CELL_COUNTS: usize = SLOT_SERIALS + SLOTS;

// The number of cells is below this, and the urgency is counted in it.
pub const CELL_LIMIT: u32 = 64;

pub const CELLS: usize = CELL_COUNTS + SLOTS;

// ---- the records: where they start, and how long each is; within a record k, then these

pub const RECORDS: usize = CELLS + MOST_PAIRS * SLOTS;

pub const SIZE: usize = 1;

pub const PAIRS: usize = SIZE + 1;

pub const LISTED: usize = PAIRS + MOST_TERMS;

pub const THRESHOLDS: usize = LISTED + 1;

pub const SERIALS: usize = THRESHOLDS + MOST_TERMS;

pub const KEYS: usize = SERIALS + MOST_LISTED;

pub const FLAGS: usize = KEYS + MOST_LISTED;

pub const FLAG_WORDS: usize = (SLOTS + 31) / 32;

pub const RECORD: usize = FLAGS + FLAG_WORDS;

// ---- the whole, in bytes

pub const STATE: usize = 4 * (RECORDS + RECORD * NUMBERS);
