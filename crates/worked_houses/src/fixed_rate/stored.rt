// Books of one list of hours in two forms: as appends write them, and as they were written when calls still took the fixed rate, rate code 0. The hour is the
// same, and so are its demand, its rates and its temperatures: only code and second rate are others.
use crate::bytes::Hour;
use crate::convection::room::CONDITIONS as SIX_SURFACES;
use crate::limits::Meeting;
use crate::zone_read::ZoneRead;
use big_endian::{put_byte, read_u32_be, write_f64_be};
use book::BookState;
use zone::AirChangesPerHourArgument as Rates;

// The conditions of the house with the most elements: those of another are the first bytes of as many.
pub const MOST_CONDITIONS: usize = SIX_SURFACES;

// More than any of these books.
pub const ROOM: usize = 4096;

// In an entry: its conditions, and of them the rate code and the second rate.
pub const CONDITIONS: usize = 5;

pub const RATE_CODE: usize = CONDITIONS + 96;

pub const SECOND_RATE: usize = CONDITIONS + 105;

// Where the entry behind this one begins.
pub fn behind(book: &[u8], place: usize) -> usize {
    let length = read_u32_be(book, place) as usize;
    place.saturating_add(4).saturating_add(length)
}

// The entry at this place with the fixed rate.
pub fn put_fixed_rate(book: &mut [u8], place: usize) {
    put_byte(book, place.saturating_add(RATE_CODE), 0);
    write_f64_be(book, place.saturating_add(SECOND_RATE), 0.0);
}

#[derive(Clone, Copy)]
pub struct Books {
    old: [u8; ROOM],
    appended: [u8; ROOM],
    pub end: BookState,
}

impl Books {
    // Of these hours, whose conditions have this length. One with a fixed rate is appended with target and windows open both that rate, and has it in the old book.
    pub fn of(zone: &ZoneRead, length: usize, hours: &[(Hour, Meeting)]) -> Books {
        let length = length.min(MOST_CONDITIONS);
        let mut appended = [0; ROOM];
        let mut end = zone.begin(&mut appended).values;
        for (hour, meeting) in hours {
            let conditions: [u8; MOST_CONDITIONS] = hour.with_rate_twice().bytes();
            end = zone
                .append(end, &conditions[..length], *meeting, &mut appended)
                .values;
        }
        let mut old = appended;
        let mut place = zone.length;
        for (hour, _) in hours {
            if let Rates::Cooling(_) = hour.rates {
                put_fixed_rate(&mut old, place);
            }
            place = behind(&old, place);
        }
        Books { old, appended, end }
    }

    pub fn old(&self) -> &[u8] {
        self.old.get(..self.end.used).unwrap_or(&[])
    }

    pub fn appended(&self) -> &[u8] {
        self.appended.get(..self.end.used).unwrap_or(&[])
    }
}
