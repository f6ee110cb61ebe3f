// Also where a cut lost the hour: House P's eight hours with code 0, cut a byte before the end of the last hour of each version. Offered anew with code 0 the
// hour is refused; with target and windows open both the rate it is accepted.
// Specification, Fixed rate.
use crate::bytes::CONDITIONS as CONDITIONS_LENGTH;
use crate::chilled_ceiling::differing::differing;
use crate::failure;
use crate::fixed_rate::stored::{CONDITIONS, RATE_CODE};
use crate::fixed_rate::taken_up::eight_fixed_hours;
use crate::house_p::house::{ENTRY, HEAD, HOUSE_P};
use crate::house_p::questions::{LONG_ENTRY, ROOM, USED};
use crate::limits::{MOST, Meeting};
use crate::refusal::Cause;
use crate::replies::{Counts, taken_up};
use crate::table::row;
use crate::zone_read::ZoneRead;
use big_endian::{byte_at, bytes_at, put_byte};
use book::{BookState, Reply};
use std::io;

// An hour of which the cut loses the last byte: its index, where its entry begins and ends, its version, and that of the hour before it.
#[derive(Clone, Copy)]
struct Lost {
    hour: usize,
    place: usize,
    end: usize,
    version: u64,
}

const LOST_HOURS: [Lost; 3] = [
    Lost {
        hour: 1,
        place: HEAD + ENTRY,
        end: HEAD + 2 * ENTRY,
        version: 1,
    },
    Lost {
        hour: 4,
        place: HEAD + 4 * ENTRY,
        end: HEAD + 5 * ENTRY,
        version: 2,
    },
    Lost {
        hour: 7,
        place: USED - LONG_ENTRY,
        end: USED,
        version: 3,
    },
];

#[derive(Clone, Copy)]
struct Offered {
    reply: Reply,
    buffer: [u8; ROOM],
}

impl Lost {
    // Each has an hour of its own version before it.
    fn left(self) -> Counts {
        Counts {
            entries: self.hour,
            used: self.place,
            last_version: self.version,
        }
    }

    fn whole(self) -> Counts {
        Counts {
            entries: self.hour.saturating_add(1),
            used: self.end,
            last_version: self.version,
        }
    }

    // Its conditions again, with a rate code and as many zeros as a second rate of 0 has.
    fn conditions(self, book: &[u8; ROOM], code: u8) -> [u8; CONDITIONS_LENGTH] {
        let mut conditions = bytes_at(book, self.place.saturating_add(CONDITIONS));
        put_byte(&mut conditions, RATE_CODE - CONDITIONS, code);
        conditions
    }

    // Offered anew to a book that was cut, with the values of its take-up.
    fn offered(self, zone: &ZoneRead, book: &[u8; ROOM], given: BookState, code: u8) -> Offered {
        let meeting = Meeting::with(self.version, MOST, MOST);
        let mut buffer = *book;
        let reply = zone.append(given, &self.conditions(book, code), meeting, &mut buffer);
        Offered { reply, buffer }
    }

    fn print_refused(self, rt: &impl Print, offered: Offered, book: &[u8; ROOM]) -> io::Result<()> {
        println!(rt; "offered anew with code 0: 8")?;
        let refused = self.left().refused(Cause::ConditionsCode, 0);
        refused.print(rt, offered.reply)?;
        let changed = differing(&offered.buffer, book);
        row(rt, "  bytes of the buffer changed", changed, 0)
    }

    // The entry that was lost, but for its code.
    fn print_accepted(
        self,
        rt: &impl Print,
        offered: Offered,
        book: &[u8; ROOM],
    ) -> io::Result<()> {
        println!(rt; "with target and windows open 0: accepted")?;
        let buffer = offered.buffer;
        self.whole().accepted().print(rt, offered.reply)?;
        let unlike = differing(&buffer, book);
        row(rt, "  bytes unlike the lost entry", unlike, 1)?;
        let code = byte_at(&buffer, self.place.saturating_add(RATE_CODE));
        row(rt, "  its rate code", code, 1)?;
        println!(rt; "taken up")?;
        let whole = buffer.get(..self.end).unwrap_or(&[]);
        self.whole().accepted().print(rt, taken_up(whole))
    }

    fn print(self, rt: &impl Print, zone: &ZoneRead, book: &[u8; ROOM]) -> io::Result<()> {
        println!(rt;
            "House P's hours to hour {} of version {}, code 0, without the last byte",
            self.hour, self.version
        )?;
        let cut = book.get(..self.end.saturating_sub(1)).unwrap_or(&[]);
        let left = taken_up(cut);
        self.left().accepted().print(rt, left)?;
        self.print_refused(rt, self.offered(zone, book, left.values, 0), book)?;
        self.print_accepted(rt, self.offered(zone, book, left.values, 1), book)
    }
}

pub fn print_cuts(rt: &impl Print) -> failure::Result<()> {
    let head = HOUSE_P.head();
    let zone = ZoneRead::read(&head)?;
    let book = eight_fixed_hours(&zone);
    for lost in LOST_HOURS {
        lost.print(rt, &zone, &book)?;
    }
    Ok(())
}
