// The small book cut and continued.
use crate::cuts::{Continuation, spread};
use crate::held::check_held;
use crate::passes::check_pass;
use crate::small_book::{Book, HOURS, PLAN, THREE, TWO, USED};
use crate::small_changes::print_changes;
use crate::small_questions::print_questions;
use house_books::{ENTRY, HEAD, House, LONG_ENTRY, Mark, VERSIONS, Version};
use std::io;

// Where the entries of version 2 and of version 3 begin.
const TWO_PLACE: usize = HEAD + ENTRY * TWO;

const THREE_PLACE: usize = HEAD + ENTRY * THREE;

// Around a change: the last two entries of the older version and the first two of the newer. A cut at the end of the last leaves it
// whole.
fn print_every_byte(rt: &impl Print, again: Continuation) -> io::Result<()> {
    for (entries, places) in [
        (
            "four entries around the change to version 2",
            TWO_PLACE - 2 * ENTRY..TWO_PLACE + 2 * ENTRY + 1,
        ),
        (
            "four entries around the change to version 3",
            THREE_PLACE - 2 * ENTRY..THREE_PLACE + 2 * LONG_ENTRY + 1,
        ),
        (
            "last three entries of version 1",
            TWO_PLACE - 3 * ENTRY..TWO_PLACE + 1,
        ),
        (
            "last three entries of version 2",
            THREE_PLACE - 3 * ENTRY..THREE_PLACE + 1,
        ),
        (
            "last three entries of version 3",
            USED - 3 * LONG_ENTRY..USED + 1,
        ),
    ] {
        println!(rt;
            "cuts at every byte of the {entries}: {}",
            again.tally_at(places)
        )?;
    }
    Ok(())
}

// Cut and continued as it was.
fn print_cuts(rt: &impl Print, whole: &Book) -> io::Result<()> {
    let again = Continuation {
        whole,
        wanted: whole,
    };
    println!(rt;
        "cuts within the head, refused with 1: {}",
        again.tally_at(0..HEAD)
    )?;
    print_every_byte(rt, again)?;
    println!(rt;
        "cuts spread over the book: {}",
        again.tally_at(spread(USED - HEAD))
    )
}

// Cut around the changes where an entry of one version is left, and continued in another.
fn print_pass(rt: &impl Print, whole: &Book, last: Version, version: Version) -> io::Result<()> {
    let tally = check_pass(whole, last, version);
    print!(rt; "cuts around the changes that leave version {last}, ")?;
    if version < last {
        println!(rt; "version {version} refused with 18: {tally}")
    } else {
        println!(rt; "continued in version {version}: {tally}")
    }
}

fn print_passes(rt: &impl Print, whole: &Book) -> io::Result<()> {
    for last in VERSIONS {
        for version in VERSIONS {
            print_pass(rt, whole, last, version)?;
        }
    }
    Ok(())
}

// The same hours all in one version.
fn print_in_one(rt: &impl Print, house: &House, version: Version) -> io::Result<()> {
    match Book::in_versions(house, PLAN.continued_in(0, version)) {
        Some(book) => println!(rt; "the same hours in version {version}, {book}"),
        None => println!(rt; "the same hours in version {version}: {}", Mark(false)),
    }
}

pub fn print_small(rt: &impl Print, house: &House) -> io::Result<()> {
    print!(rt;
        "a book of {HOURS} hours, from {TWO} on in version 2, from {THREE} on in version 3"
    )?;
    let Some(mut whole) = Book::in_versions(house, PLAN) else {
        return println!(rt; ": {}", Mark(false));
    };
    println!(rt; ", {whole}")?;
    println!(rt; "{}", check_held(house, &whole.bytes, PLAN, HOURS))?;
    print_cuts(rt, &whole)?;
    print_questions(rt, &whole)?;
    for version in VERSIONS {
        print_in_one(rt, house, version)?;
    }
    print_passes(rt, &whole)?;
    print_changes(rt, &mut whole)
}
