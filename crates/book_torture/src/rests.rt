// Bytes behind a small book that are no entry: dropped where they are too few for their version byte, else a false entry.
use crate::expected::{expected_of_rest, is_answered};
use crate::small_book::{Book, HOURS, ROOM, THREE, TWO};
use big_endian::{put_byte, put_bytes};
use house_books::{CUT_OFF, FRONT, LONG_ENTRY, Tally, VERSION_BYTES, VERSION_PLACE, Version};

// The longest rest is longer than any entry.
const MOST: usize = LONG_ENTRY + 7;

// A book and the longest rest.
const WITH_REST: usize = ROOM + MOST;

// By what they are: too few for a version byte, a version that no hour has, fewer bytes than the version's entry, or as many.
#[derive(Clone, Copy, Default)]
pub struct Rests {
    pub under_front: Tally,
    pub unknown: Tally,
    pub short: Tally,
    pub whole: Tally,
}

impl Rests {
    fn count(&mut self, rest: usize, byte: u8, right: bool) {
        match Version::try_from(byte) {
            _ if rest < FRONT => self.under_front.count(right),
            Err(_) => self.unknown.count(right),
            Ok(version) if rest < version.entry_length() => self.short.count(right),
            Ok(_) => self.whole.count(right),
        }
    }

    // Behind so many hours of the small book, of this version byte.
    fn count_behind(&mut self, whole: &Book, count: usize, byte: u8) {
        let mut b = [CUT_OFF; WITH_REST];
        let Some(hours) = whole.hours(count) else {
            return self.count(0, byte, false);
        };
        put_bytes(&mut b, 0, hours);
        put_byte(&mut b, hours.len().saturating_add(VERSION_PLACE), byte);
        for rest in 0..=MOST {
            let expected = expected_of_rest(count, rest, byte);
            let bytes = b.get(..hours.len().saturating_add(rest));
            let right = bytes.is_some_and(|bytes| is_answered(bytes, expected));
            self.count(rest, byte, right);
        }
    }
}

// Behind a book of no hours, and behind books that end in each version; of every version that hours have and of some that none has.
pub fn check_rests(whole: &Book) -> Rests {
    let mut rests = Rests::default();
    for count in [0, TWO, THREE, HOURS] {
        for byte in VERSION_BYTES {
            rests.count_behind(whole, count, byte);
        }
    }
    rests
}
