// The greatest powers of a plant, beside an hour's conditions.
ghost use Rattle.std.specs.Prelude.{◌≡◌};
ghost use Rattle.zone.specs.Format.Limits.{limits_in};

use crate::format::bytes::read_f64_be;
use crate::format::layout::FLOAT_SIZE;

// Greatest heating and greatest cooling, W.
#[derive(Clone, Copy)]
pub struct Limits {
    pub heating: f64,
    pub cooling: f64,
}

// Both floats.
const LIMITS_SIZE: usize = 2 * FLOAT_SIZE;

// The limits in the first bytes; 0 twice where there are too few, as of an hour without limits, where nothing uses them. No Option: the contract, which is
// exported, gives two numbers for any bytes, and `next_hour`, for which the book reads them, takes `Limits` with every version.
#[tactic(auto, unfolding(crate::specs::Format::Limits::limits_in))]
pub fn read_limits(bytes: &[u8]) -> Limits
    ensures { result ≡ limits_in bytes.now }
{
    if bytes.len() < LIMITS_SIZE {
        return Limits {
            heating: 0.0,
            cooling: 0.0,
        };
    }
    Limits {
        heating: read_f64_be(bytes, 0),
        cooling: read_f64_be(bytes, FLOAT_SIZE),
    }
}
