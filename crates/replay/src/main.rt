// Replays a sample of the oracle's answers and compares every value, bit by bit (zeros of either sign are equal), also the
// sums by direction of heat flow, which stand among its values in each heat balance, and reason and load, which stand behind
// each demand. Hours with the fixed rate, which is retired, are asked with that rate twice; as they stand, calls refuse them,
// and why, take-up and converter take them. Then the refusals, each of a demand also asked for its reason, the questions over
// a book and its conversion, each with its number and index or its answer. How the data were made: make_data.py.
#![tactic(auto)]

mod book_calls;
mod case;
mod cases;
mod comparison;
mod counts;
mod failure;
mod fixed_rates;
mod hour;
mod rate_twice;
mod record;
mod records;
mod refusal;
mod refusals;
mod report;
mod row;
mod same;
mod zone_calls;

use std::fs::File;
use std::io;
use std::rt::Files;

fn replay_cases(rt: &(impl Files + Print)) -> io::Result<()> {
    let mut file = File::open(rt, "cases")?;
    let (tally, fixed_rates) = cases::check_cases(&mut file)?;
    report::print_cases(rt, &tally, &fixed_rates)
}

fn replay_refusals(rt: &(impl Files + Print)) -> io::Result<()> {
    let mut file = File::open(rt, "refusals")?;
    let tally = refusals::check_rows(&mut file)?;
    report::print_rows(rt, &tally)
}

fn main(rt: HostRuntime) -> io::Result<()> {
    replay_cases(&rt)?;
    replay_refusals(&rt)
}
