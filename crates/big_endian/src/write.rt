// Writing: what would lie past the end is left out.
ghost use Rattle.std.specs.Prelude.{◌≡◌, slice_set};
ghost use Rattle.std.specs.Int.{w64, to_be_bytes};
ghost use Rattle.big_endian.specs.Bytes.{written, f64_bytes, f64s_bytes};

use std::num::f64_to_bits_with_nan;

pub fn put_byte(b: &mut [u8], at: usize, x: u8)
    ensures { b.new ≡ slice_set b.old at x }
{
    if at < b.len() {
        b[at] = x;
    }
}

#[tactic(auto, using(crate::proofs::Writes::written_middle))]
pub fn put_bytes(b: &mut [u8], at: usize, bytes: &[u8])
    ensures { b.new ≡ written b.old at bytes.now }
{
    if at < b.len() {
        let count = bytes.len().min(b.len() - at);
        b[at..at + count].copy_from_slice(&bytes[..count]);
    }
}

pub fn write_u64_be(b: &mut [u8], at: usize, n: u64)
    ensures { b.new ≡ written b.old at (to_be_bytes w64 n) }
{
    put_bytes(b, at, &n.to_be_bytes());
}

pub fn write_f64_be(b: &mut [u8], at: usize, x: f64)
    ensures { b.new ≡ written b.old at (f64_bytes x) }
{
    write_u64_be(b, at, f64_to_bits_with_nan(x));
}

// One behind the other. The place is counted as it goes: `at + 8 * i` could pass the greatest number.
#[tactic(auto, using(crate::proofs::Writes::float_behind))]
pub fn write_f64s_be(b: &mut [u8], at: usize, xs: &[f64])
    ensures { b.new ≡ written b.old at (f64s_bytes xs.now) }
{
    let mut place = at;
    for x in xs {
        write_f64_be(b, place, *x);
        place = place.saturating_add(8);
    }
}
