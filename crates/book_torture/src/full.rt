// A whole year: 8,784 hours, the 8,785th refused, cuts and bytes behind it.
use crate::full_changes::print_damage;
use crate::full_hours::print_hours;
use crate::full_questions::print_questions;
use crate::held::check_held;
use crate::old_year::print_old_year;
use house_books::year::{MOST, PLAN, THREE, TWO, USED, Year};
use house_books::{FRONT, HEAD, House, LONG_ENTRY, Mark, Tally, VERSION_BYTES, Version, YEAR};
use std::alloc::Global;
use std::io;

// The 8,785th hour, appended, is refused and changes nothing.
fn print_one_more(rt: &impl Print, year: &mut Year) -> io::Result<()> {
    for (what, version) in [
        ("append of the 8,785th hour refused with 17", 3),
        ("in version 1, behind version 3: with 17 too", 1),
        ("in a version that no hour has: with 17 too", 4),
    ] {
        println!(rt; "{what}: {}", Mark(year.refuses_more(version)))?;
    }
    Ok(())
}

// Bytes behind the year with this version byte: dropped up to one byte below a length, and 17 from there on.
fn print_rest(rt: &impl Print, year: &mut Year, byte: u8) -> io::Result<()> {
    let length = Version::try_from(byte).map_or(FRONT, |version| version.entry_length());
    let short = length.saturating_sub(1);
    println!(rt;
        "take-up with {short} bytes of version {byte} behind the year: the same: {}",
        Mark(year.drops(short, byte))
    )?;
    println!(rt;
        "with {length} and with {MOST} bytes: refused with 17: {}",
        Mark(year.is_too_long(length, byte) && year.is_too_long(MOST, byte))
    )
}

fn print_take_up(rt: &impl Print, year: &mut Year) -> io::Result<()> {
    println!(rt;
        "take-up of the year: 8,784 entries, the same temperatures: {}",
        Mark(year.drops(0, 0))
    )?;
    for byte in VERSION_BYTES {
        print_rest(rt, year, byte)?;
    }
    Ok(())
}

// Cut, taken up, and filled again to the end.
fn print_cuts(rt: &impl Print, year: &mut Year) -> io::Result<()> {
    for (place, cut) in [
        ("at the head's end, continued", HEAD),
        ("at 1,000,000, continued", 1_000_000),
        ("a byte before the end, continued", USED - 1),
        ("at the end", USED),
    ] {
        println!(rt;
            "cut {place}: the same bytes: {}",
            Mark(year.is_continued(cut))
        )?;
    }
    Ok(())
}

// At every byte of the last three entries.
fn print_many_cuts(rt: &impl Print, year: &mut Year) -> io::Result<()> {
    println!(rt;
        "cuts of the year at every byte of its last three entries: {}",
        Tally::of(
            USED - 3 * LONG_ENTRY..USED + 1,
            |cut| year.is_continued(cut)
        )
    )
}

pub fn print_year(rt: &impl Print, alloc: Global, house: &House) -> io::Result<()> {
    print!(rt; "a year of {YEAR} hours, from {TWO} on in version 2, from {THREE} on in version 3")?;
    let Some(mut year) = Year::new(alloc, house)? else {
        return println!(rt; ": {}", Mark(false));
    };
    println!(rt; ", {} bytes: {}", year.end.used, Mark(year.is_whole()))?;
    print_hours(rt, &year.bytes)?;
    let held = check_held(house, &year.bytes, PLAN, YEAR);
    println!(rt; "{held}")?;
    print_one_more(rt, &mut year)?;
    print_take_up(rt, &mut year)?;
    print_questions(rt, &year)?;
    print_cuts(rt, &mut year)?;
    print_many_cuts(rt, &mut year)?;
    print_old_year(rt, alloc, &year)?;
    print_damage(rt, &held, &mut year)
}
