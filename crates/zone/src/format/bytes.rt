// Numbers and floats in bytes, the highest byte first (Specification, Bytes). They are read at a place, as in the definitions (`float_at s at`) and in the
// specification's tables, which count from the start of a head: a part `&s[at..]` is `take (length s - at) (drop at s)` in a proof, and each call would need
// the law that this is `drop at s`. The programs' `big_endian` has readers of these names that take what lies past the end as 0; these ask for bytes that are
// there (docs/DECISIONS.md).
ghost use Rattle.std.specs.Prelude.{◌≡◌, ◌+◌, ◌≤◌, ◌<◌, length, take, drop};
ghost use Rattle.zone.specs.Format.Bytes.{num_at, float_at, float_size};

use std::num::f64_from_bits_with_nan;

// The `N` bytes from `at` on.
fn bytes_at<const N: usize>(s: &[u8], at: usize) -> [u8; N]
    requires { at + N ≤ length s.now }
    ensures { result ≡ take N (drop at s.now) }
{
    let mut bytes = [0; N];
    bytes.copy_from_slice(&s[at..at + N]);
    bytes
}

// The number in the two bytes from `at` on.
#[tactic(auto, using(crate::proofs::Laws::Bytes::two_bytes))]
pub fn read_u16_be(s: &[u8], at: usize) -> u64
    requires { at + 2 ≤ length s.now }
    ensures { (result ≡ num_at s.now at 2) × (result < 65536) }
{
    u64::from(u16::from_be_bytes(bytes_at(s, at)))
}

// The number in the four bytes from `at` on.
#[tactic(auto, using(crate::proofs::Laws::Bytes::four_bytes))]
pub fn read_u32_be(s: &[u8], at: usize) -> u64
    requires { at + 4 ≤ length s.now }
    ensures { (result ≡ num_at s.now at 4) × (result < 4294967296) }
{
    u64::from(u32::from_be_bytes(bytes_at(s, at)))
}

// The number in the eight bytes from `at` on.
#[tactic(auto, using(crate::proofs::Laws::Bytes::eight_bytes))]
pub fn read_u64_be(s: &[u8], at: usize) -> u64
    requires { at + float_size ≤ length s.now }
    ensures { result ≡ num_at s.now at float_size }
{
    u64::from_be_bytes(bytes_at(s, at))
}

// The float whose pattern stands in the eight bytes from `at` on; a NaN's pattern gives a NaN.
pub fn read_f64_be(s: &[u8], at: usize) -> f64
    requires { at + float_size ≤ length s.now }
    ensures { result ≡ float_at s.now at }
{
    f64_from_bits_with_nan(read_u64_be(s, at))
}
