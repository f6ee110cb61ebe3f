// Node temperatures in bytes.
ghost use Rattle.std.specs.Prelude.{◌≡◌};
ghost use Rattle.zone.specs.Inner.Temperatures.{temperatures_from};

use crate::format::decode::floats_to;
use crate::format::layout::FLOAT_SIZE;

// 24 elements of five nodes, and the air.
const MOST_NODES: usize = 121;

// The first `nodes` floats of the bytes, into the first places; the others stay, and all of them where the bytes are too few or the nodes too many.
#[tactic(auto, unfolding(crate::specs::Inner::Temperatures::temperatures_from))]
pub fn read_temperatures(bytes: &[u8], nodes: usize, temps: &mut [f64; 121])
    ensures { temps.new ≡ temperatures_from bytes.now nodes temps.old }
{
    if nodes <= MOST_NODES && FLOAT_SIZE * nodes <= bytes.len() {
        floats_to(&mut temps[..nodes], bytes, 0);
    }
}
