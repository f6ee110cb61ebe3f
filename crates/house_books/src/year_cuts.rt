// The whole year cut at places that are spread over a half of it, taken up and continued.
use crate::house::{House, head};
use crate::layout::{HEAD, YEAR};
use crate::tally::{Mark, Tally};
use crate::year::{THREE, TWO, USED, Year};
use std::alloc::Global;
use std::ops::Range;
use std::{fmt, io};

// So many cuts are spread over a book, here half of them over each half, and so far apart.
pub const SPREAD: usize = 2000;

const STEP: usize = (USED - HEAD) / SPREAD;

const MIDDLE: usize = HEAD + SPREAD / 2 * STEP;

const END: usize = HEAD + SPREAD * STEP;

#[derive(Clone, Copy)]
pub enum Half {
    First,
    Second,
}

impl Half {
    // Where its first cut is, and the first behind its last.
    fn places(self) -> Range<usize> {
        match self {
            Half::First => HEAD..MIDDLE,
            Half::Second => MIDDLE..END,
        }
    }
}

impl fmt::Display for Half {
    fn fmt<W: fmt::Write>(&self, f: &mut fmt::Formatter<W>) -> fmt::Result {
        f.write_str(match self {
            Half::First => "first",
            Half::Second => "second",
        })
    }
}

// The year, and how many of the cuts of a half leave a book that becomes it again.
pub fn print_year_cuts(rt: &impl Print, alloc: Global, half: Half) -> io::Result<()> {
    let Ok(house) = House::read(&head()) else {
        return println!(rt; "the head of the house: {}", Mark(false));
    };
    print!(rt; "a year of {YEAR} hours, from {TWO} on in version 2, from {THREE} on in version 3")?;
    let Some(mut year) = Year::new(alloc, &house)? else {
        return println!(rt; ": {}", Mark(false));
    };
    println!(rt; ", {} bytes: {}", year.end.used, Mark(year.is_whole()))?;
    let Range { start, end } = half.places();
    println!(rt;
        "cuts spread over its {half} half, from {start} to {end}: {}",
        Tally::of((start..end).step_by(STEP), |cut| year.is_continued(cut))
    )
}
