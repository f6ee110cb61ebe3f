// Sizes in the bytes of a book, and where the parts of an entry begin.

// A leap year's hours.
pub const MOST_ENTRIES: usize = 8784;

pub const MOST_ELEMENTS: usize = 24;

pub const FLOAT_SIZE: usize = 8;

// Of each record: the length of what follows.
pub const LENGTH_SIZE: usize = 4;

pub const VERSION_SIZE: usize = 1;
// Length and version.
pub const FRONT_SIZE: usize = LENGTH_SIZE + VERSION_SIZE;

// An hour's conditions: so many bytes, and so many for each element.
pub const CONDITIONS_SIZE: usize = 113;

pub const CONDITIONS_ELEMENT: usize = 41;

// Heating, cooling and rate.
pub const RATES_SIZE: usize = 3 * FLOAT_SIZE;
// Those, the trigger byte and the trigger rate.
pub const DEMAND_SIZE: usize = RATES_SIZE + 1 + FLOAT_SIZE;

// Greatest heating and greatest cooling, of an hour that has limits.
pub const LIMITS_SIZE: usize = 2 * FLOAT_SIZE;

// What follows the length: version, conditions, demand and a float for each node; the limits besides.
pub const FIXED_LENGTH: usize = VERSION_SIZE + CONDITIONS_SIZE + DEMAND_SIZE;

// 24 elements of five nodes, the air, and the limits.
pub const LONGEST_FOLLOWING: usize = FIXED_LENGTH
    + 24 * CONDITIONS_ELEMENT
    + 121 * FLOAT_SIZE
    + LIMITS_SIZE;

pub const LONGEST_ENTRY: usize = LENGTH_SIZE + LONGEST_FOLLOWING;
