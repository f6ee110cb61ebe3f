// An entry of version 3, part by part: the limits stand behind the conditions, the rest is as in version 2.
use crate::chilled_ceiling::books::{CONDITIONS_FROM, VERSION};
use crate::chilled_ceiling::differing::{bytes_of, differing, temperature_bytes};
use crate::chilled_ceiling::room::{CONDITIONS, HEAD, LIMITED_ENTRY, LIMITS, Room, warm_hour};
use crate::limits::{MOST, Meeting};
use crate::replies::Counts;
use crate::table::{holds, row};
use big_endian::read_u32_be;
use std::io;
use zone::{Limits, State};

// A book of one such entry, and places in it: the limits, then heating, cooling, rate and trigger, then the temperatures.
pub const BOOK: usize = HEAD + LIMITED_ENTRY;

const LIMITS_FROM: usize = CONDITIONS_FROM + CONDITIONS;

const DEMAND_FROM: usize = LIMITS_FROM + LIMITS;

const DEMAND: usize = 33;

const TEMPERATURES_FROM: usize = DEMAND_FROM + DEMAND;

// A greatest heating that the warm hour does not need, and less cooling than it needs, each byte of them told from 0.
pub const HEATING: f64 = 1234.5678901234567;

pub const COOLING: f64 = 123.45678901234567;

// The counts of a book with this entry alone.
pub const COUNTS: Counts = Counts {
    entries: 1,
    used: BOOK,
    last_version: 3,
};

// The parts of an entry of version 2, where the demand stands behind the conditions.
#[derive(Clone, Copy)]
struct Parts<'a> {
    demand: &'a [u8],
    temperatures: &'a [u8],
}

fn parts_of_two(book: &[u8; BOOK]) -> Parts<'_> {
    Parts {
        demand: &book[LIMITS_FROM..LIMITS_FROM + DEMAND],
        temperatures: &book[LIMITS_FROM + DEMAND..BOOK - LIMITS],
    }
}

// The entry's parts; 163 + 41n + 8N with n = 2 and N = 8 is 309.
fn print_parts(
    rt: &impl Print,
    book: &[u8; BOOK],
    limits: Limits,
    two: &[u8; BOOK],
    after: State,
) -> io::Result<()> {
    row(rt, "  length of what follows", read_u32_be(book, HEAD), 309)?;
    row(rt, "  version byte", book[VERSION], 3)?;
    println!(rt; "  bytes that differ")?;
    let conditions = differing(&book[CONDITIONS_FROM..LIMITS_FROM], &warm_hour());
    row(rt, "    of the conditions", conditions, 0)?;
    let given: [u8; LIMITS] = bytes_of(&[limits.heating, limits.cooling]);
    let limits = differing(&book[LIMITS_FROM..DEMAND_FROM], &given);
    row(rt, "    of the limits", limits, 0)?;
    let demand = differing(
        &book[DEMAND_FROM..TEMPERATURES_FROM],
        parts_of_two(two).demand,
    );
    row(rt, "    of the demand, version 2's", demand, 0)?;
    let temperatures = differing(&book[TEMPERATURES_FROM..], &temperature_bytes(after));
    row(rt, "    of the hour step's temps", temperatures, 0)
}

// The warm hour's entry with these limits. Returns how many bytes of its temperatures are not those of version 2.
fn print_entry(
    rt: &impl Print,
    room: &Room,
    title: &str,
    meeting: Meeting,
    two: &[u8; BOOK],
) -> io::Result<usize> {
    let conditions = warm_hour();
    let mut book = [0; BOOK];
    let reply = room.zone.book_of_one(&conditions, meeting, &mut book);
    let step = room.zone.hour_step(room.start, &conditions, meeting);
    println!(rt; "{title}")?;
    COUNTS.accepted().print(rt, reply)?;
    print_parts(rt, &book, meeting.limits, two, step.state)?;
    let temperatures = &book[TEMPERATURES_FROM..];
    Ok(differing(temperatures, parts_of_two(two).temperatures))
}

pub fn print_entries(rt: &impl Print, room: &Room) -> io::Result<()> {
    let mut two = [0; BOOK];
    room.zone
        .book_of_one(&warm_hour(), Meeting::unlimited(2), &mut two);
    let title = "the warm hour's entry in version 3, cooling limit 123.457 W: it holds";
    let held = Meeting::limited(HEATING, COOLING);
    let unlike_two = print_entry(rt, room, title, held, &two)?;
    holds(rt, "  version 2's temperatures differ", unlike_two != 0)?;
    let not_held = Meeting::limited(MOST, MOST);
    let unlike_two = print_entry(rt, room, "both limits 1e7", not_held, &two)?;
    row(rt, "    of version 2's temperatures", unlike_two, 0)
}
