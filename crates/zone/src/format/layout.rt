// Where the parts of a head and of an hour's conditions begin, and how long they are.
// Specification, Head; Conditions.

pub const FLOAT_SIZE: usize = 8;

// A head, as an entry, begins with 4 bytes, the length of what follows, and a version byte, which is 1 in a head.
pub const LENGTH_SIZE: usize = 4;

pub const VERSION_OF_HEAD: u8 = 1;

// The head: length, version, basis, element count, 2-byte start-up limit, six floats, elements.
pub const VERSION_AT: usize = LENGTH_SIZE;

pub const BASIS_AT: usize = VERSION_AT + 1;

pub const COUNT_AT: usize = BASIS_AT + 1;

pub const LIMIT_AT: usize = COUNT_AT + 1;

pub const USEFUL_AREA_AT: usize = LIMIT_AT + 2;

pub const VOLUME_AT: usize = USEFUL_AREA_AT + FLOAT_SIZE;

pub const BRIDGES_AT: usize = VOLUME_AT + FLOAT_SIZE;

pub const TEMP_EXT_AIR_INIT_AT: usize = BRIDGES_AT + FLOAT_SIZE;

pub const TEMP_SETPNT_INIT_AT: usize = TEMP_EXT_AIR_INIT_AT + FLOAT_SIZE;

pub const TEMP_SETPNT_COOL_VENT_INIT_AT: usize = TEMP_SETPNT_INIT_AT + FLOAT_SIZE;

pub const FIRST_ELEMENT: usize = TEMP_SETPNT_COOL_VENT_INIT_AT + FLOAT_SIZE;

// The least and the greatest length of a head: that of one Transparent with no treatments, and that of 24 five-node elements.
pub const SHORTEST_LENGTH: usize = FIRST_ELEMENT - LENGTH_SIZE + TRANSPARENT_SIZE;

pub const LONGEST_LENGTH: usize = FIRST_ELEMENT - LENGTH_SIZE + 24 * FIVE_NODES_SIZE;

// An element: kind, treatments, seven floats, k_pli, h_pli, delta_r, its first hour.
pub const TREATMENTS: usize = 1;

pub const AREA: usize = 2;

pub const PITCH: usize = AREA + FLOAT_SIZE;

pub const H_CE: usize = PITCH + FLOAT_SIZE;

pub const H_RE: usize = H_CE + FLOAT_SIZE;

pub const H_RI: usize = H_RE + FLOAT_SIZE;

pub const SOLAR_ABSORPTION_COEFF: usize = H_RI + FLOAT_SIZE;

pub const THERM_RAD_TO_SKY: usize = SOLAR_ABSORPTION_COEFF + FLOAT_SIZE;

pub const ELEMENT_ARRAYS: usize = THERM_RAD_TO_SKY + FLOAT_SIZE;

// Five k_pli and four h_pli, or two and one.
pub const FIVE_NODES_SIZE: usize = ELEMENT_ARRAYS + 9 * FLOAT_SIZE + ELEMENT_HOUR_SIZE;

pub const TRANSPARENT_SIZE: usize = ELEMENT_ARRAYS + 3 * FLOAT_SIZE + ELEMENT_HOUR_SIZE;

// An hour's part of an element: five floats, and the byte of the open treatments.
pub const I_SOL_DIR: usize = FLOAT_SIZE;

pub const I_SOL_DIF: usize = I_SOL_DIR + FLOAT_SIZE;

pub const F_SH_DIR: usize = I_SOL_DIF + FLOAT_SIZE;

pub const F_SH_DIF: usize = F_SH_DIR + FLOAT_SIZE;

pub const OPEN_BYTE: usize = F_SH_DIF + FLOAT_SIZE;

pub const ELEMENT_HOUR_SIZE: usize = OPEN_BYTE + 1;

// Conditions: twelve floats, a rate code with two rates, the elements' parts.
pub const RATE_CODE: usize = FLOAT_SIZE * 12;

pub const FIRST_RATE: usize = RATE_CODE + 1;

pub const SECOND_RATE: usize = FIRST_RATE + FLOAT_SIZE;

pub const FIRST_ELEMENT_HOUR: usize = SECOND_RATE + FLOAT_SIZE;
