// A whole year of old hours: every fifth has the fixed rate.
use house_books::year::{PLAN, THREE, USED, Year};
use house_books::{
    House, Mark, Plan, YEAR, begin_and_append, has_one_rate, put_fixed_rate, same_book_states,
    taken_up,
};
use std::alloc::{AllocError, Global};
use std::io;
use tools::ConvertError;

// As the year, but from version 2 on: such a book can be converted.
const LATER: Plan = Plan {
    two: Some(0),
    three: Some(THREE),
};

// Returns how many hours it writes so.
fn put_old_hours(b: &mut [u8], plan: Plan) -> usize {
    let mut count = 0usize;
    for hour in (0..YEAR).filter(|hour| has_one_rate(*hour)) {
        if let Some(entry) = b.get_mut(plan.place_of(hour)..) {
            put_fixed_rate(entry);
            count = count.saturating_add(1);
        }
    }
    count
}

// Taken up it is the same year; it has entries of version 1.
fn print_first(rt: &impl Print, year: &Year) -> io::Result<()> {
    let mut old = year.bytes.clone()?;
    let count = put_old_hours(&mut old, PLAN);
    let bytes = old.get(..USED).unwrap_or(&[]);
    let taken = taken_up(bytes);
    println!(rt;
        "the year with the fixed rate in {count} hours, as they were written: taken up with the same values: {}",
        Mark(taken.is_some_and(|values| same_book_states(&values, &year.end)))
    )?;
    let refused = tools::convert(bytes, &mut []).err();
    println!(rt;
        "  converted, refused with 24: {}",
        Mark(refused == Some(ConvertError::Version1Entry))
    )
}

// The old year, the year of now, and an output.
#[derive(Drop)]
struct Years {
    old: Vec<u8>,
    anew: Vec<u8>,
    out: Vec<u8>,
}

impl Years {
    // None where an hour is refused.
    fn new(alloc: Global, house: &House) -> Result<Option<Years>, AllocError> {
        let mut anew = vec![in alloc; 0; USED]?;
        if begin_and_append(house, YEAR, LATER, &mut anew).is_none() {
            return Ok(None);
        }
        let mut old = anew.clone()?;
        put_old_hours(&mut old, LATER);
        let out = vec![in alloc; 0; USED]?;
        Ok(Some(Years { old, anew, out }))
    }

    fn is_converted(&mut self) -> bool {
        let converted = tools::convert(&self.old, &mut self.out);
        let counted = converted.is_ok_and(|c| c.count == YEAR && c.used == USED);
        counted && self.out.as_slice() == self.anew.as_slice()
    }

    // From the output to where the old year was.
    fn is_converted_again(&mut self) -> bool {
        let converted = tools::convert(&self.out, &mut self.old);
        converted.is_ok() && self.old.as_slice() == self.anew.as_slice()
    }
}

pub fn print_old_year(rt: &impl Print, alloc: Global, year: &Year) -> io::Result<()> {
    print_first(rt, year)?;
    let Some(mut years) = Years::new(alloc, year.house)? else {
        return println!(rt; "the year from version 2 on: {}", Mark(false));
    };
    println!(rt;
        "the same hours from version 2 on, converted: the bytes of appends: {}",
        Mark(years.is_converted())
    )?;
    println!(rt;
        "  converted again: the same: {}",
        Mark(years.is_converted_again())
    )
}
