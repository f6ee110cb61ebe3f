// The bytes of a weather file that have a meaning, its counts and places.
// Specification, Weather of a line; Decimals of a weather file.

pub const LINE_FEED: u8 = b'\n';

pub const CARRIAGE_RETURN: u8 = b'\r';

pub const COMMA: u8 = b',';

pub const MINUS_SIGN: u8 = b'-';

pub const POINT: u8 = b'.';

pub const DIGIT_0: u8 = b'0';

pub const HEADER_LINES: usize = 8;

// Fields are counted from 1.
pub const DRY_BULB_FIELD: usize = 7;

pub const DIRECT_NORMAL_FIELD: usize = 15;

pub const DIFFUSE_HORIZONTAL_FIELD: usize = 16;

pub const MOST_DIGITS: usize = 12;
