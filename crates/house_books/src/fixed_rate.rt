// The fixed rate, rate code 0, in an entry: as it was written while calls still took it, and as what is now written in its place.
use crate::layout::{FIRST_RATE_PLACE, RATE_CODE_PLACE, SECOND_RATE_PLACE};
use big_endian::{byte_at, bytes_at, put_byte, put_bytes, read_u64_be, write_f64_be};

// Behind the rate stand zeros; with other bytes there an hour is none.
pub fn has_fixed_rate(entry: &[u8]) -> bool {
    byte_at(entry, RATE_CODE_PLACE) == 0 && read_u64_be(entry, SECOND_RATE_PLACE) == 0
}

pub fn put_fixed_rate(entry: &mut [u8]) {
    put_byte(entry, RATE_CODE_PLACE, 0);
    write_f64_be(entry, SECOND_RATE_PLACE, 0.0);
}

// Target and windows open both the rate that stands there.
pub fn put_rate_twice(entry: &mut [u8]) {
    let rate = bytes_at::<8>(entry, FIRST_RATE_PLACE);
    put_byte(entry, RATE_CODE_PLACE, 1);
    put_bytes(entry, SECOND_RATE_PLACE, &rate);
}
