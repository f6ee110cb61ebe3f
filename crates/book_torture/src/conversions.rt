// The converter over books of old hours: each hour with the fixed rate has target and windows open both that rate, and all else is as it was.
use crate::expected::Expected;
use crate::old_book::{HOURS, OldBook, ROOM};
use big_endian::{byte_at, put_bytes};
use house_books::{
    Entries, HEAD, House, Plan, Tally, VERSION_PLACE, Version, has_fixed_rate, put_rate_twice,
};
use tools::{ConvertError, Converted};

// What stands in the output before.
const BEFORE: u8 = 85;

fn is_of(converted: Result<Converted, ConvertError>, entries: Entries) -> bool {
    converted.is_ok_and(|c| c.count == entries.count && c.used == entries.used)
}

// The rates of so many entries, from the first on.
fn rewrite(b: &mut [u8], count: usize) {
    let mut place = HEAD;
    for _ in 0..count {
        let Some(entry) = b.get_mut(place..) else {
            return;
        };
        if has_fixed_rate(entry) {
            put_rate_twice(entry);
        }
        let version = Version::try_from(byte_at(entry, VERSION_PLACE));
        place = place.saturating_add(version.map_or(0, |version| version.entry_length()));
    }
}

// Versions never fall, so that the first entry has version 1 where any has.
fn begins_with_version_1(bytes: &[u8], entries: Entries) -> bool {
    0 < entries.count && byte_at(bytes, HEAD + VERSION_PLACE) == 1
}

// Whether the converter answers so of bytes that a take-up answers so.
pub fn is_converted(bytes: &[u8], taken: Expected) -> bool {
    let mut out = [BEFORE; ROOM];
    let answer = tools::convert(bytes, &mut out);
    match taken {
        Err(refusal) => {
            answer.err() == Some(ConvertError::Book(refusal)) && out == [BEFORE; ROOM]
        }
        Ok(entries) if begins_with_version_1(bytes, entries) => {
            answer.err() == Some(ConvertError::Version1Entry) && out == [BEFORE; ROOM]
        }
        Ok(entries) => {
            let mut wanted = [BEFORE; ROOM];
            put_bytes(&mut wanted, 0, bytes.get(..entries.used).unwrap_or(&[]));
            rewrite(&mut wanted, entries.count);
            out == wanted && is_of(answer, entries)
        }
    }
}

impl OldBook<'_> {
    // So many bytes of the old book and of the one of now, each converted: the latter's whole entries, and nothing behind them.
    fn is_converted_at(&self, cut: usize) -> bool {
        let entries = self.plan.entries(self.plan.whole_before(cut));
        let mut wanted = [BEFORE; ROOM];
        put_bytes(&mut wanted, 0, self.anew.get(..entries.used).unwrap_or(&[]));
        [&self.old, &self.anew].into_iter().all(|b| {
            let mut out = [BEFORE; ROOM];
            let left = b.get(..cut).unwrap_or(&[]);
            let answer = tools::convert(left, &mut out);
            out == wanted && is_of(answer, entries)
        })
    }

    // At every byte.
    pub fn check_conversions(&self) -> Tally {
        Tally::of(HEAD..self.used().saturating_add(1), |cut| {
            self.is_converted_at(cut)
        })
    }

    // Into so few bytes: nothing is written.
    fn is_too_long_for(&self, room: usize) -> bool {
        let old = self.old.get(..self.used()).unwrap_or(&[]);
        let mut out = [BEFORE; ROOM];
        let answer = tools::convert(old, &mut out[..room.min(ROOM)]);
        answer.err() == Some(ConvertError::BufferShort) && out == [BEFORE; ROOM]
    }

    // Into each output that is too short.
    pub fn check_rooms(&self) -> Tally {
        Tally::of(0..self.used(), |room| self.is_too_long_for(room))
    }

    fn is_converted(&self) -> bool {
        self.is_converted_at(self.used())
    }

    // Each beginning of it, which has entries of version 1.
    pub fn check_version_1(&self) -> Tally {
        Tally::of(1..HOURS + 1, |count| {
            let entries = self.plan.entries(count);
            let left = self.old.get(..entries.used).unwrap_or(&[]);
            is_converted(left, Ok(entries))
        })
    }
}

// Books of version 2 that pass to version 3 at each hour: from the first on, so that all have it, to none.
pub fn check_passing(house: &House) -> Tally {
    Tally::of(0..HOURS + 1, |three| {
        let plan = Plan {
            two: Some(0),
            three: Some(three),
        };
        OldBook::in_versions(house, plan).is_some_and(|book| book.is_converted())
    })
}
