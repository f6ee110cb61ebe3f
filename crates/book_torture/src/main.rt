// Books cut and damaged. A small book and a whole year, which both pass from version 1 to version 2 and on to version 3, are cut at
// every byte of some entries, the small one at 2,000 places spread over it too (those of the year are early_cuts and late_cuts), taken
// up, continued and compared with the book that was never cut; single bytes are changed, versions and limits among them, and bytes
// stand behind the books.
// What is left of a cut book, and the whole year, is asked when it got warm. Books of old hours, with the fixed rate, are cut, damaged,
// continued and converted.
#![tactic(auto)]

mod appends;
mod conversions;
mod cuts;
mod damage;
mod expected;
mod follows;
mod full;
mod full_changes;
mod full_hours;
mod full_questions;
mod held;
mod old;
mod old_appends;
mod old_book;
mod old_cuts;
mod old_damage;
mod old_year;
mod passes;
mod questions;
mod rests;
mod rooms;
mod small;
mod small_book;
mod small_changes;
mod small_questions;
mod stored_limits;
mod versions;
mod walk;

use house_books::{House, Mark, head};
use std::io;

fn main(rt: HostRuntime) -> io::Result<()> {
    let Ok(house) = House::read(&head()) else {
        return println!(rt; "the head of the house: {}", Mark(false));
    };
    small::print_small(&rt, &house)?;
    old::print_old(&rt, &house)?;
    full::print_year(&rt, rt.alloc(), &house)
}
