// Old hours, with the fixed rate: a book of them cut, damaged, continued and converted.
use crate::conversions::check_passing;
use crate::old_appends::check_old_appends;
use crate::old_book::{HOURS, LATER, OldBook, PLAN};
use crate::old_damage::{check_old_damages, check_second_floats};
use house_books::{House, Mark, Plan, Tally};
use std::io;

// Books that pass from 1 to 2, from 1 to 3 and from 2 to 3 at each hour.
fn check_take_ups(house: &House) -> Tally {
    let mut tally = Tally::default();
    for change in 0..=HOURS {
        for (two, three) in [(change, HOURS), (change, change), (change / 2, change)] {
            let plan = Plan {
                two: Some(two),
                three: Some(three),
            };
            let book = OldBook::in_versions(house, plan);
            tally.count(book.is_some_and(|book| book.is_taken_up()));
        }
    }
    tally
}

fn print_cuts(rt: &impl Print, book: &OldBook) -> io::Result<()> {
    println!(rt;
        "cuts at every byte behind the head, the next hour refused with 8 as it was, continued with target and windows open: {}",
        book.check_cuts()
    )?;
    println!(rt;
        "cuts there, the three questions answered as of the hours of now: {}",
        book.check_questions()
    )
}

fn print_damages(rt: &impl Print, book: &mut OldBook) -> io::Result<()> {
    let t = check_old_damages(book);
    println!(rt; "bytes of it changed, answered as expected: {}", t.answers)?;
    println!(rt; "  converted as expected: {}", t.conversions)?;
    println!(rt; "  refused: {}", t.refused)?;
    println!(rt; "  accepted: {}", t.held)?;
    println!(rt;
        "bits set in the eight zero bytes of its fixed rates, refused with 18 there: {}",
        check_second_floats(book)
    )
}

fn print_appends(rt: &impl Print, book: &OldBook) -> io::Result<()> {
    let t = check_old_appends(book);
    println!(rt;
        "appends of the fixed rate behind each number of its hours, refused with 8: {}",
        t.retired
    )?;
    println!(rt;
        "  with a limit out of range: with 8 too: {}",
        t.before_limits
    )?;
    println!(rt;
        "  with a byte too little room: with 8 too: {}",
        t.before_room
    )?;
    println!(rt;
        "  in a version that may not follow, refused with 18 at the count: {}",
        t.behind_version
    )
}

fn print_conversions(rt: &impl Print, house: &House, book: &OldBook) -> io::Result<()> {
    println!(rt;
        "conversions of its beginnings, refused with 24: {}",
        book.check_version_1()
    )?;
    println!(rt;
        "books of {HOURS} such hours that pass from 2 to 3 at each hour, converted: the bytes of appends: {}",
        check_passing(house)
    )?;
    let Some(mut later) = OldBook::in_versions(house, LATER) else {
        return println!(rt; "one of them: {}", Mark(false));
    };
    println!(rt;
        "one of them cut at every byte behind the head, converted, and converted again: {}",
        later.check_conversions()
    )?;
    println!(rt;
        "  into every output that is too short, refused with 16: {}",
        later.check_rooms()
    )?;
    print_damages(rt, &mut later)
}

pub fn print_old(rt: &impl Print, house: &House) -> io::Result<()> {
    print!(rt;
        "a book of {HOURS} hours, three of four with the fixed rate as they were written, in versions 1, 2 and 3"
    )?;
    let Some(mut book) = OldBook::in_versions(house, PLAN) else {
        return println!(rt; ": {}", Mark(false));
    };
    println!(rt; ", {} bytes: {}", book.used(), Mark(book.is_taken_up()))?;
    println!(rt;
        "such books that pass from 1 to 2, from 1 to 3 and from 2 to 3 at each hour, taken up: {}",
        check_take_ups(house)
    )?;
    print_cuts(rt, &book)?;
    print_damages(rt, &mut book)?;
    print_appends(rt, &book)?;
    print_conversions(rt, house, &book)
}
