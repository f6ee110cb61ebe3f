// The oracle's cases: each is run, and every value compared with the oracle's. One with the fixed rate, which is retired, is run
// with that rate twice, and what the calls make of it as it stands is counted besides.
use crate::case::{Case, Operation};
use crate::comparison::{Comparison, Difference, Stored};
use crate::counts::CaseTally;
use crate::failure::Failure;
use crate::fixed_rates::FixedRateTally;
use crate::hour::Hour;
use crate::rate_twice::RateTwice;
use crate::records::{MOST_RECORDS, ROOM, next_record};
use crate::zone_calls;
use std::io;
use std::io::Read;

fn run(case: &Case<'_>, hour: &Hour<'_>, seen: &mut Comparison<'_>) -> Result<(), Failure> {
    let zone = zone_calls::read(case.head)?;
    match case.operation {
        Operation::Demand => zone_calls::demand_and_why(&zone, hour, seen),
        Operation::Update => zone_calls::update(&zone, hour, seen),
        Operation::StartUp => zone_calls::start_up(&zone, seen),
        Operation::HourStep1 | Operation::HourStep2 | Operation::HourStep3 => {
            let (version, limits) = case.rule();
            zone_calls::hour_step(&zone, hour, version, limits, seen)
        }
    }
}

// Of a refused case the numbers alone are compared.
fn difference(case: &Case<'_>, hour: &Hour<'_>) -> Option<Difference> {
    let mut seen = Comparison::new(case.answer.unwrap_or(Stored::none()));
    match (run(case, hour, &mut seen), case.answer) {
        (Ok(()), Ok(_)) => seen.difference(),
        (Ok(()), Err(_)) => Some(Difference::Accepted),
        (Err(failure), Err(number)) if failure.number() == number => None,
        (Err(failure), _) => Some(Difference::Number(failure.number())),
    }
}

fn check_case(case: &Case<'_>, tally: &mut CaseTally, fixed_rates: &mut FixedRateTally) {
    match RateTwice::of(case.hour.conditions) {
        None => tally.count(case, difference(case, &case.hour)),
        Some(twice) => {
            let hour = Hour {
                conditions: twice.conditions(),
                ..case.hour
            };
            tally.count(case, difference(case, &hour));
            fixed_rates.count(case, twice.conditions());
        }
    }
}

pub fn check_cases(file: &mut impl Read) -> io::Result<(CaseTally, FixedRateTally)> {
    let mut tally = CaseTally::default();
    let mut fixed_rates = FixedRateTally::default();
    let mut buffer = [0; ROOM];
    for _ in 0..MOST_RECORDS {
        match next_record(file, &mut buffer)? {
            None => break,
            Some(record) => check_case(&Case::read(record), &mut tally, &mut fixed_rates),
        }
    }
    Ok((tally, fixed_rates))
}
