// Books with hours of code 0, each judged by what the hour step would write without this refusal: taken up as the book of the same hours with code 1 is,
// asked the same questions, and refused with 18 where an entry is false.
// Specification, Fixed rate.
use crate::chilled_ceiling::differing::{differing, unlike_anywhere};
use crate::failure;
use crate::fixed_rate::houses::{Sample, ceiling, ceiling_from_1, house_p, six_surfaces, windows};
use crate::fixed_rate::stored::{CONDITIONS, RATE_CODE, SECOND_RATE, behind, put_fixed_rate};
use crate::house_p::house::{ENTRY, HEAD, HOUSE_P};
use crate::house_p::questions::{ROOM, USED, eight_hours, print_answers};
use crate::refusal::Cause;
use crate::replies::{Counts, MADE_UP, taken_up};
use crate::table::row;
use crate::zone_read::ZoneRead;
use big_endian::put_byte;
use std::io;

// House P's eight hours, which have rate 0, all with code 0: in each only the code byte is another.
pub fn eight_fixed_hours(zone: &ZoneRead) -> [u8; ROOM] {
    let mut book = eight_hours(zone);
    let mut place = HEAD;
    for _ in 0..8 {
        put_fixed_rate(&mut book, place);
        place = behind(&book, place);
    }
    book
}

// Taken up as the book of appends.
pub fn print_same(rt: &impl Print, old: &[u8], appended: &[u8], counts: Counts) -> io::Result<()> {
    let came = taken_up(old);
    counts.accepted().print(rt, came)?;
    let other = taken_up(appended).values;
    let unlike = unlike_anywhere(came.values.state, other.state);
    row(rt, "  bytes of temperatures unlike", unlike, 0)
}

fn print_eight(rt: &impl Print, zone: &ZoneRead) -> io::Result<()> {
    let appended = eight_hours(zone);
    let old = eight_fixed_hours(zone);
    println!(rt; "House P's eight hours of versions 1, 2 and 3, all with code 0")?;
    row(rt, "  bytes unlike code 1's", differing(&old, &appended), 8)?;
    let counts = Counts {
        entries: 8,
        used: USED,
        last_version: 3,
    };
    print_same(rt, &old, &appended, counts)?;
    print_answers(rt, &old)
}

// In hours 1, 4 and 7, the last of their versions, a byte that makes the entry false.
fn print_false(rt: &impl Print, zone: &ZoneRead) -> io::Result<()> {
    let book = eight_fixed_hours(zone);
    for (hour, place) in [
        (1, HEAD + ENTRY),
        (4, HEAD + 4 * ENTRY),
        (7, USED - ENTRY - 16),
    ] {
        for (said, within, byte) in [
            ("-0.0 behind the rate", SECOND_RATE, 128),
            ("rate code 2", RATE_CODE, 2),
            ("a rate of -0.0, another rate chosen", CONDITIONS + 97, 128),
            ("a gain more", CONDITIONS + 86, 1),
        ] {
            let mut changed = book;
            put_byte(&mut changed, place.saturating_add(within), byte);
            println!(rt; "hour {hour} with {said}: 18")?;
            let refused = MADE_UP.refused(Cause::FalseEntry, hour);
            refused.print(rt, taken_up(&changed))?;
        }
    }
    Ok(())
}

fn print_sample(rt: &impl Print, title: &str, sample: &Sample) -> io::Result<()> {
    println!(rt; "{title}")?;
    let changed = differing(sample.books.old(), sample.books.appended());
    row(rt, "  bytes unlike code 1's", changed, sample.changed)?;
    print_same(
        rt,
        sample.books.old(),
        sample.books.appended(),
        sample.counts,
    )
}

pub fn print_taken_up(rt: &impl Print) -> failure::Result<()> {
    let head = HOUSE_P.head();
    let zone = ZoneRead::read(&head)?;
    print_eight(rt, &zone)?;
    print_false(rt, &zone)?;
    let title = "House P, five hours of versions 2 and 3 with fixed rates of 0";
    print_sample(rt, title, &house_p()?)?;
    let title = "the room with a chilled ceiling, three of five hours with a fixed rate";
    print_sample(rt, title, &ceiling()?)?;
    let title = "the same room in versions 1, 2 and 3, each hour with a fixed rate";
    print_sample(rt, title, &ceiling_from_1()?)?;
    let title = "the room with windows, two of five hours with a fixed rate";
    print_sample(rt, title, &windows()?)?;
    let title = "the room of six surfaces, two hours with a fixed rate";
    print_sample(rt, title, &six_surfaces()?)?;
    Ok(())
}
