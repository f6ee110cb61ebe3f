// What the hours of the year are, by version: heated, cooled, with windows open.
use house_books::year::PLAN;
use house_books::{Entry, ONE_RATE, VERSIONS, Version, YEAR};
use std::io;

// How many hours of a version are of a kind.
fn hours_with<F: Fn(Entry) -> bool>(b: &[u8], version: Version, is_one: F) -> usize
    requires { F.IsAlwaysCallable is_one }
{
    (0..YEAR)
        .filter(|hour| PLAN.version_at(*hour) == version)
        .filter_map(|hour| Entry::of_hour(b, PLAN, hour))
        .filter(|entry| is_one(*entry))
        .count()
}

fn print_version(rt: &impl Print, b: &[u8], version: Version) -> io::Result<()> {
    let heating = hours_with(b, version, |entry| 0.0 < entry.heating());
    let cooling = hours_with(b, version, |entry| entry.cooling() < 0.0);
    let windows = hours_with(b, version, |entry| ONE_RATE < entry.rate());
    println!(rt; "  hours of version {version} with heating: {heating}")?;
    println!(rt; "  hours of version {version} with cooling: {cooling}")?;
    println!(rt; "  hours of version {version} with windows open: {windows}")
}

pub fn print_hours(rt: &impl Print, b: &[u8]) -> io::Result<()> {
    for version in VERSIONS {
        print_version(rt, b, version)?;
    }
    Ok(())
}
