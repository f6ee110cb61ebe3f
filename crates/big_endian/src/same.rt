// Floats compared by their bits: all NaNs are one, and zeros of either sign are two.
ghost use Rattle.std.specs.Prelude.{◌≡◌, ◌↔◌, IsTrue, map, to_bits};
ghost use Rattle.std.specs.Float.Ieee.{binary64};

use std::num::f64_to_bits_with_nan;

// As long as each other, and of the same bits place by place.
pub fn same_floats(a: &[f64], b: &[f64]) -> bool
    ensures { IsTrue result ↔ (map (to_bits binary64) a.now ≡ map (to_bits binary64) b.now) }
{
    let mut pairs = a.iter().zip(b);
    a.len() == b.len() && pairs.all(|(x, y)| f64_to_bits_with_nan(*x) == f64_to_bits_with_nan(*y))
}
