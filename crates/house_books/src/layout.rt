// Sizes in the bytes of the house's books, and where the parts of an entry begin.

// The head, an hour's conditions and its limits.
pub const HEAD: usize = 367;

pub const CONDITIONS: usize = 195;

pub const LIMITS: usize = 16;
// A float for each of the house's nodes ends an entry.
pub const NODES: usize = 8;

pub const TEMPERATURES: usize = 8 * NODES;

// Every entry begins with 4 bytes for the length of what follows them, and its version.
pub const LENGTH: usize = 4;

pub const FRONT: usize = LENGTH + 1;

pub const VERSION_PLACE: usize = LENGTH;

pub const CONDITIONS_PLACE: usize = FRONT;

// Of the rates, which stand in the conditions: their code, and the two.
pub const RATE_CODE_PLACE: usize = CONDITIONS_PLACE + 96;

pub const FIRST_RATE_PLACE: usize = RATE_CODE_PLACE + 1;

pub const SECOND_RATE_PLACE: usize = FIRST_RATE_PLACE + 8;

// Behind the conditions stand the limits where the version has them, else the results at once.
pub const LIMITS_PLACE: usize = CONDITIONS_PLACE + CONDITIONS;

pub const COOLING_LIMIT_PLACE: usize = LIMITS_PLACE + 8;

// Of an entry's results: heating, cooling, rate, the trigger, its rate, and the temperatures.
pub const COOLING: usize = 8;

pub const RATE: usize = 2 * 8;

pub const TRIGGER: usize = 3 * 8;

pub const TRIGGER_RATE: usize = TRIGGER + 1;

pub const RESULT_TEMPERATURES: usize = TRIGGER_RATE + 8;

pub const RESULTS: usize = RESULT_TEMPERATURES + TEMPERATURES;

// A whole entry of versions 1 and 2, and one of version 3.
pub const ENTRY: usize = FRONT + CONDITIONS + RESULTS;

pub const LONG_ENTRY: usize = ENTRY + LIMITS;

// The entries that a book may have.
pub const YEAR: usize = 8784;

// What stands behind a cut, and behind a book.
pub const CUT_OFF: u8 = 170;
