// An hour with the fixed rate, code 0, and the same hour with code 1 and its rate twice: as target and with windows open.
use big_endian::{bytes_at, put_byte, put_bytes, read_u64_be};

// In an hour's conditions.
const RATE_CODE: usize = 96;

const RATE: usize = 97;

const SECOND_RATE: usize = 105;

// Conditions of 24 elements.
const MOST: usize = 113 + 24 * 41;

// In an entry: where its conditions begin.
const CONDITIONS: usize = 5;

// Behind the rate stand zeros; with other bytes there an hour is none.
pub fn has_fixed_rate(conditions: &[u8]) -> bool {
    conditions.get(RATE_CODE).is_some_and(|code| *code == 0)
        && read_u64_be(conditions, SECOND_RATE) == 0
}

// The conditions that have the rate twice.
#[derive(Drop)]
pub struct RateTwice {
    bytes: [u8; MOST],
    length: usize,
}

impl RateTwice {
    // None of conditions without the fixed rate.
    pub fn of(conditions: &[u8]) -> Option<Self> {
        if !has_fixed_rate(conditions) {
            return None;
        }
        let mut bytes = [0; MOST];
        put_bytes(&mut bytes, 0, conditions);
        put_byte(&mut bytes, RATE_CODE, 1);
        put_bytes(&mut bytes, SECOND_RATE, &bytes_at::<8>(conditions, RATE));
        Some(RateTwice {
            bytes,
            length: conditions.len(),
        })
    }

    pub fn conditions(&self) -> &[u8] {
        self.bytes.get(..self.length).unwrap_or(&[])
    }
}

// Of an entry with the rate twice: the fixed rate in its place.
pub fn put_fixed_rate(entry: &mut [u8]) {
    put_byte(entry, CONDITIONS + RATE_CODE, 0);
    put_bytes(entry, CONDITIONS + SECOND_RATE, &[0; 8]);
}
