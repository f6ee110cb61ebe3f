// The small book cut around its changes of version and continued in each version.
use crate::cuts::Continuation;
use crate::small_book::{Book, HOURS, PLAN, THREE, TWO};
use house_books::{Tally, Version};

// Cut within the entry with this index, which leaves as many: the entries around a change are the last two of the older version and
// the first three of the newer.
fn is_near(count: usize) -> bool {
    (TWO - 2..TWO + 3).contains(&count) || (THREE - 2..THREE + 3).contains(&count)
}

// At every byte of the entry with this index: the book that was never cut is made by the plan that the cut book is continued by.
fn check_entry(whole: &Book, count: usize, version: Version) -> Tally {
    match Book::in_versions(whole.house, PLAN.continued_in(count, version)) {
        Some(wanted) => Continuation {
            whole,
            wanted: &wanted,
        }
        .tally_at(PLAN.bytes_of(count)),
        None => Tally { all: 1, right: 0 },
    }
}

// Cut around the changes where an entry of version `last` is left, and continued in `version`.
pub fn check_pass(whole: &Book, last: Version, version: Version) -> Tally {
    let mut tally = Tally::default();
    for count in 0..HOURS {
        if is_near(count) && PLAN.entries(count).last_version == last {
            tally += check_entry(whole, count, version);
        }
    }
    tally
}
