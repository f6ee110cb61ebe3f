// Floats and copies written into a lent buffer, from its start; what lies behind them stays. The programs' `big_endian` is no second of these: it takes any
// place and leaves out what has no room, as the programs' books are cut short, while these ask for the room.
ghost use Rattle.std.specs.Prelude.{◌≡◌, ◌*◌, ◌≤◌, length};
ghost use Rattle.zone.specs.Format.Bytes.{float_size};
ghost use Rattle.zone.specs.Format.Encode.{float_bytes, row_bytes};
ghost use Rattle.book.specs.Inner.Start.{with_start};

use crate::layout::FLOAT_SIZE;
use std::num::f64_to_bits_with_nan;

#[tactic(auto, using(crate::proofs::Laws::Loops::eight_bytes))]
pub fn write_f64_be(x: f64, b: &mut [u8])
    requires { float_size ≤ length b.old }
    ensures { b.new ≡ with_start (float_bytes x) b.old }
{
    put(&f64_to_bits_with_nan(x).to_be_bytes(), b);
}

// Floats, one behind the other.
#[tactic(auto, using(crate::proofs::Laws::Loops::floats_none, crate::proofs::Laws::Loops::floats_more))]
pub fn write_f64s_be(xs: &[f64], b: &mut [u8])
    requires { float_size * length xs.now ≤ length b.old }
    ensures { b.new ≡ with_start (row_bytes xs.now) b.old }
{
    for (i, x) in xs.iter().enumerate() {
        write_f64_be(*x, &mut b[FLOAT_SIZE * i..]);
    }
}

#[tactic(auto, unfolding(crate::specs::Inner::Start::with_start))]
pub fn put(src: &[u8], b: &mut [u8])
    requires { length src.now ≤ length b.old }
    ensures { b.new ≡ with_start src.now b.old }
{
    b[..src.len()].copy_from_slice(src);
}
