// The rows made from the order of tests (Specification, Order of tests): each call's number and index, and what an accepted one gives.
use crate::comparison::{Comparison, Difference, Stored};
use crate::counts::RowTally;
use crate::failure::Failure;
use crate::records::{MOST_RECORDS, ROOM, next_record};
use crate::row::{Call, Row};
use crate::{book_calls, zone_calls};
use std::io;
use std::io::Read;

fn run(row: &Row<'_>, seen: &mut Comparison<'_>) -> Result<(), Failure> {
    let hour = &row.hour;
    let [value, upper, _] = hour.own;
    match row.call {
        Call::Demand => zone_calls::demand_and_why(&row.zone()?, hour, seen),
        Call::Update => zone_calls::update(&row.zone()?, hour, seen),
        Call::StartUp => zone_calls::start_up(&row.zone()?, seen),
        Call::HourStep => zone_calls::hour_step(
            &row.zone()?,
            hour,
            row.version,
            hour.limits(),
            seen,
        ),
        Call::Begin => book_calls::begin(row, seen),
        Call::Append => book_calls::append(row, &row.zone()?, seen),
        Call::TakeUp => book_calls::take_up(row, seen),
        Call::ReadHead => {
            row.zone()?;
            Ok(())
        }
        Call::ZoneTest => Ok(zone::zone_test(&row.zone()?)?),
        Call::FirstAbove => {
            seen.hour(tools::first_above(row.head, value)?);
            Ok(())
        }
        Call::HoursWithin => {
            seen.value(tools::hours_within(row.head, value, upper)? as u64);
            Ok(())
        }
        Call::NearestHour => {
            seen.hour(tools::nearest_hour(row.head, value)?);
            Ok(())
        }
        Call::Convert => book_calls::convert(row, seen),
        Call::Why => zone_calls::why(&row.zone()?, hour, seen),
    }
}

// That of cases.rt, but that a row's refusal has an index too, and that only the number is told that came: one for both would be passed how a failure and an
// answer are compared.
fn difference(row: &Row<'_>) -> Option<Difference> {
    let mut seen = Comparison::new(row.answer.unwrap_or(Stored::none()));
    match (run(row, &mut seen), row.answer) {
        (Ok(()), Ok(_)) => seen.difference().map(|_| Difference::Came(0)),
        (Ok(()), Err(_)) => Some(Difference::Came(0)),
        (Err(failure), Err(refusal)) if failure.refusal() == refusal => None,
        (Err(failure), _) => Some(Difference::Came(failure.number())),
    }
}

// The loop of check_cases, over rows: one for both would be passed how to read and how to count, and be no shorter.
pub fn check_rows(file: &mut impl Read) -> io::Result<RowTally> {
    let mut tally = RowTally::default();
    let mut buffer = [0; ROOM];
    for _ in 0..MOST_RECORDS {
        match next_record(file, &mut buffer)? {
            None => break,
            Some(record) => {
                let row = Row::read(record);
                tally.count(&row, difference(&row));
            }
        }
    }
    Ok(tally)
}
