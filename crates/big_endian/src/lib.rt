// Big-endian numbers and floats in slices of bytes. A byte past the end is read as 0, or as none by `part`, and is not written. Place and slice are two
// parameters, as the tables of Specification, Bytes, count places from the start of a head or an entry: a caller of functions of `&s[at..]` would first have
// to test each place against the length, since these books are cut anywhere. All NaNs have one pattern, as in `std::num::f64_to_bits_with_nan` and
// `f64_from_bits_with_nan`.
#![tactic(auto)]

mod read;
mod same;
mod write;

pub use read::{
    byte_at, bytes_at, part, read_f64_be, read_f64s_be, read_u16_be, read_u32_be, read_u64_be,
};
pub use same::same_floats;
pub use write::{put_byte, put_bytes, write_f64_be, write_f64s_be, write_u64_be};
