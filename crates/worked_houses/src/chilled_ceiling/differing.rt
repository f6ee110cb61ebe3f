// In how many bytes what came differs from something else.
use crate::chilled_ceiling::room::NODES;
use big_endian::write_f64s_be;
use zone::State;

// Bytes of the room's temperatures, and of every temperature that a state has room for.
pub const TEMPERATURES: usize = 8 * NODES;

const ALL_TEMPERATURES: usize = 8 * 121;

pub fn bytes_of<const N: usize>(floats: &[f64]) -> [u8; N] {
    let mut bytes = [0; N];
    write_f64s_be(&mut bytes, 0, floats);
    bytes
}

pub fn temperature_bytes(state: State) -> [u8; TEMPERATURES] {
    bytes_of(&state.temps[..NODES])
}

// Of two strings of bytes of one length.
pub fn differing(a: &[u8], b: &[u8]) -> usize {
    a.iter().zip(b).filter(|(x, y)| x != y).count()
}

// Of the room's temperatures.
pub fn unlike(a: State, b: State) -> usize {
    differing(&temperature_bytes(a), &temperature_bytes(b))
}

// Of all that a state has room for.
pub fn unlike_anywhere(a: State, b: State) -> usize {
    let a: [u8; ALL_TEMPERATURES] = bytes_of(&a.temps);
    let b: [u8; ALL_TEMPERATURES] = bytes_of(&b.temps);
    differing(&a, &b)
}
