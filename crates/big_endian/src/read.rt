// Reading: past the end every byte is 0, and a part is none.
ghost use Rattle.std.specs.Prelude.{◌≡◌, ◌+◌, ◌<◌, ◌≤◌, length, slice_index, slice_range, MatchOption};
ghost use Rattle.std.specs.Int.{w16, w32, w64, from_be_bytes};
ghost use Rattle.big_endian.specs.Bytes.{bytes_from, f64_from, f64s_from};

use std::array::from_fn;
use std::num::f64_from_bits_with_nan;

pub fn byte_at(s: &[u8], at: usize) -> u8
    ensures { result ≡ slice_index s.now at }
{
    s.get(at).copied().unwrap_or(0)
}

// The `N` bytes from `at` on.
pub fn bytes_at<const N: usize>(s: &[u8], at: usize) -> [u8; N]
    ensures { result ≡ bytes_from s.now at N }
{
    let mut bytes = [0; N];
    if let Some(rest) = s.get(at..) {
        let count = rest.len().min(N);
        bytes[..count].copy_from_slice(&rest[..count]);
    }
    bytes
}

pub fn read_u16_be(s: &[u8], at: usize) -> u16
    ensures { result ≡ from_be_bytes w16 (bytes_from s.now at 2) }
{
    u16::from_be_bytes(bytes_at(s, at))
}

pub fn read_u32_be(s: &[u8], at: usize) -> u32
    ensures { result ≡ from_be_bytes w32 (bytes_from s.now at 4) }
{
    u32::from_be_bytes(bytes_at(s, at))
}

pub fn read_u64_be(s: &[u8], at: usize) -> u64
    ensures { result ≡ from_be_bytes w64 (bytes_from s.now at 8) }
{
    u64::from_be_bytes(bytes_at(s, at))
}

// A NaN's pattern gives a NaN.
pub fn read_f64_be(s: &[u8], at: usize) -> f64
    ensures { result ≡ f64_from s.now at }
{
    f64_from_bits_with_nan(read_u64_be(s, at))
}

// One behind the other. A place beyond the greatest number lies past the end, as that number does.
pub fn read_f64s_be<const N: usize>(s: &[u8], at: usize) -> [f64; N]
    ensures { result ≡ f64s_from s.now at N }
{
    from_fn(|i| read_f64_be(s, at.saturating_add(i.saturating_mul(8))))
}

// The `count` bytes from `from` on; none where they are not all there.
pub fn part(s: &[u8], from: usize, count: usize) -> Option<&[u8]>
    ensures { MatchOption result (length s.now < from + count)
        (λ bytes. (from + count ≤ length s.now) × (bytes.now ≡ slice_range s.now from (from + count))) }
{
    s.get(from..).and_then(|rest| rest.get(..count))
}
