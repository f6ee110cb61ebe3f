// The book of a whole year: checked as it is, cut, damaged, and with bytes behind it.
use crate::changed::with_bytes;
use crate::fill::{append_hours, begin_and_append};
use crate::house::House;
use crate::layout::{CUT_OFF, ENTRY, HEAD, LIMITS, LONG_ENTRY, VERSION_PLACE, YEAR};
use crate::plan::Plan;
use crate::replies::{
    accepted, has_entries, is_refused, is_take_up_refused, made_up, same_book_states, taken_up,
};
use big_endian::{byte_at, read_u64_be};
use book::{BookError, BookState, Reply};
use std::alloc::{AllocError, Global};
use zone::Refusal;

// The first hours of version 2 and of version 3: a third of the year each.
pub const TWO: usize = 2928;

pub const THREE: usize = 5856;

pub const PLAN: Plan = Plan {
    two: Some(TWO),
    three: Some(THREE),
};

// Head and 8,784 entries, and with as many bytes behind them as no entry has.
pub const USED: usize = HEAD + ENTRY * YEAR + LIMITS * (YEAR - THREE);

pub const MOST: usize = LONG_ENTRY + 1;

const WIDE: usize = USED + MOST;

// The bytes, which each check leaves as it found them, their hash, since a copy of them would double what a program needs of memory, and
// what the last append handed back.
#[derive(Drop)]
pub struct Year<'a> {
    pub house: &'a House,
    pub bytes: Vec<u8>,
    hash: u64,
    pub end: BookState,
}

// A number by which two years are told apart: where they differ within one word of eight bytes alone, it always differs.
fn hash(bytes: &[u8]) -> u64 {
    let mut hash = 0_u64;
    for word in bytes.chunks(8) {
        hash = hash.rotate_left(7).wrapping_mul(11_400_714_819_323_198_485) ^ read_u64_be(word, 0);
    }
    hash
}

fn fill_from(b: &mut [u8], at: usize, x: u8) {
    if let Some(rest) = b.get_mut(at..) {
        rest.fill(x);
    }
}

impl<'a> Year<'a> {
    // None where an hour is refused.
    pub fn new(alloc: Global, house: &'a House) -> Result<Option<Year<'a>>, AllocError> {
        let mut bytes = vec![in alloc; 0; WIDE]?;
        let Some(end) = begin_and_append(house, YEAR, PLAN, &mut bytes) else {
            return Ok(None);
        };
        let hash = hash(&bytes);
        Ok(Some(Year {
            house,
            bytes,
            hash,
            end,
        }))
    }

    pub fn is_whole(&self) -> bool {
        self.end.count == YEAR && self.end.used == USED
    }

    fn is_unchanged(&self) -> bool {
        hash(&self.bytes) == self.hash
    }

    // One hour more is refused in a version, which may be one that no hour has, and changes nothing.
    pub fn refuses_more(&mut self, version: u64) -> bool {
        let reply = self.house.append(self.end, version, &mut self.bytes);
        is_refused(reply, &self.end, BookError::BookFull) && self.is_unchanged()
    }

    // Taken up with so many bytes behind it, which have this version byte where there are enough of them; none where there is no
    // room for as many.
    fn take_up_with(&mut self, rest: usize, byte: u8) -> Option<Reply> {
        let bytes = self
            .bytes
            .as_mut_slice()
            .get_mut(..USED.saturating_add(rest))?;
        let take_up = |bytes: &[u8]| book::take_up(made_up(), bytes);
        Some(with_bytes(bytes, USED + VERSION_PLACE, [byte], take_up))
    }

    // It is the year.
    pub fn drops(&mut self, rest: usize, byte: u8) -> bool {
        let taken = self.take_up_with(rest, byte).and_then(accepted);
        taken.is_some_and(|values| same_book_states(&values, &self.end))
    }

    // It is one entry too long.
    pub fn is_too_long(&mut self, rest: usize, byte: u8) -> bool {
        let reply = self.take_up_with(rest, byte);
        reply.is_some_and(|reply| is_refused(reply, &made_up(), BookError::BookFull))
    }

    // Cut, taken up, and filled again to the end it is the year that was never cut.
    pub fn is_continued(&mut self, cut: usize) -> bool {
        let entries = PLAN.entries(PLAN.whole_before(cut));
        fill_from(&mut self.bytes, cut, CUT_OFF);
        let end = self
            .bytes
            .get(..cut)
            .and_then(taken_up)
            .filter(|taken| has_entries(taken, entries))
            .and_then(|taken| append_hours(self.house, taken, YEAR, PLAN, &mut self.bytes));
        fill_from(&mut self.bytes, USED, 0);
        end.is_some_and(|end| same_book_states(&end, &self.end)) && self.is_unchanged()
    }

    // Bits of a byte of an entry changed: the entry is false.
    pub fn is_false_with(&mut self, entry: usize, within: usize, change: u8) -> bool {
        let place = PLAN.place_of(entry).saturating_add(within);
        let false_entry = BookError::Zone(Refusal::FalseEntry(entry));
        let is_false = |bytes: &[u8]| is_take_up_refused(bytes, false_entry);
        let Some(b) = self.bytes.as_mut_slice().get_mut(..USED) else {
            return false;
        };
        let changed = byte_at(b, place) ^ change;
        with_bytes(b, place, [changed], is_false)
    }
}
