// The kinds of elements by their numbers, and what a kind says of the element's bytes.
ghost use Rattle.std.specs.Prelude.{◌≡◌, ◌<◌};
ghost use Rattle.zone.specs.Format.ElementLayout.{kind_of, h_count, max_treatments, element_size};

use crate::format::layout::{FIVE_NODES_SIZE, TRANSPARENT_SIZE};
use crate::record::building_element::{Kind, is_two_nodes};

// The kind of a number, 0 to 5. Of any other a PartyWall, as in the definition: the structure test asks for the kind of any byte, and refuses one past 5 by
// its number. With `TryFrom` the decoder, which reads what has passed that test, would have to answer an error that cannot come.
#[tactic(auto, unfolding(crate::specs::Format::ElementLayout::kind_of))]
pub fn kind_of(number: u8) -> Kind
    ensures { result ≡ kind_of number }
{
    match number {
        0 => Kind::Opaque,
        1 => Kind::AdjacentConditionedSpace,
        2 => Kind::AdjacentUnconditionedSpaceSimple,
        3 => Kind::Ground,
        4 => Kind::Transparent,
        _ => Kind::PartyWall,
    }
}

// How many h_pli an element of a kind has; it has a k_pli for each node.
pub fn h_count(kind: Kind) -> usize
    ensures { result ≡ h_count kind }
{
    if is_two_nodes(kind) { 1 } else { 4 }
}

pub fn max_treatments(kind: Kind) -> usize
    ensures { result ≡ max_treatments kind }
{
    if is_two_nodes(kind) { 4 } else { 0 }
}

// Its bytes in a head.
pub fn element_size(kind: Kind, treatments: usize) -> usize
    requires { treatments < 256 }
    ensures { result ≡ element_size kind treatments }
{
    if is_two_nodes(kind) {
        TRANSPARENT_SIZE + 8 * treatments
    } else {
        FIVE_NODES_SIZE
    }
}
