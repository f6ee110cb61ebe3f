// A byte of the year changed.
use crate::held::Held;
use house_books::year::{PLAN, THREE, TWO, Year};
use house_books::{COOLING_LIMIT_PLACE, LIMITS_PLACE, Mark, VERSION_PLACE, YEAR};
use std::io;

// The second byte of a float has the lowest bits of its exponent: this one makes a limit of some hundred watts another one.
const SECOND_BYTE: usize = 1;

const EXPONENT_BIT: u8 = 32;

fn print_last_bit(rt: &impl Print, year: &mut Year, entry: usize) -> io::Result<()> {
    let last = PLAN.version_at(entry).entry_length().saturating_sub(1);
    println!(rt;
        "last bit of entry {entry} changed: refused with 18 there: {}",
        Mark(year.is_false_with(entry, last, 1))
    )
}

// The version byte of an entry changed from one version to another.
fn print_version(rt: &impl Print, year: &mut Year, entry: usize, to: u8) -> io::Result<()> {
    let from = PLAN.version_at(entry);
    println!(rt;
        "entry {entry} of version {from} changed to version {to}: refused with 18 there: {}",
        Mark(year.is_false_with(entry, VERSION_PLACE, from as u8 ^ to))
    )
}

// A limit changed, which holds in the first such hour.
fn print_limit(
    rt: &impl Print,
    year: &mut Year,
    name: &str,
    first: Option<usize>,
    within: usize,
) -> io::Result<()> {
    let Some(entry) = first else {
        return println!(rt; "{name} limit, which holds: {}", Mark(false));
    };
    println!(rt;
        "{name} limit of entry {entry} changed, which holds: refused with 18 there: {}",
        Mark(year.is_false_with(entry, within, EXPONENT_BIT))
    )
}

pub fn print_damage(rt: &impl Print, held: &Held, year: &mut Year) -> io::Result<()> {
    for entry in [0, TWO - 1, THREE - 1, THREE, YEAR - 1] {
        print_last_bit(rt, year, entry)?;
    }
    for (entry, to) in [
        (TWO - 1, 129),
        (TWO - 1, 3),
        (THREE - 1, 1),
        (THREE - 1, 3),
        (THREE, 2),
        (YEAR - 1, 2),
        (YEAR - 1, 1),
        (YEAR - 1, 4),
    ] {
        print_version(rt, year, entry, to)?;
    }
    let heating = LIMITS_PLACE + SECOND_BYTE;
    let cooling = COOLING_LIMIT_PLACE + SECOND_BYTE;
    print_limit(rt, year, "heating", held.heating.first, heating)?;
    print_limit(rt, year, "cooling", held.cooling.first, cooling)
}
