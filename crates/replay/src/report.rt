// The summary.
use crate::case::{Operation, Profile};
use crate::counts::{CaseTally, RowTally};
use crate::fixed_rates::FixedRateTally;
use crate::row::Call;
use std::io;

// In the order of Specification, Why this rate, why this load.
const REASONS: [&str; 6] = [
    "no choice of rates",
    "not above ventilation setpoint",
    "not above supply",
    "windows do not cool",
    "still above cooling setpoint",
    "windows enough",
];

// Profile by profile, operation by operation.
fn print_table(rt: &impl Print, tally: &CaseTally) -> io::Result<()> {
    for (profile, lines) in Profile::ALL
        .iter()
        .zip(tally.counts.chunks_exact(Operation::ALL.len()))
    {
        for (operation, counts) in Operation::ALL.iter().zip(lines) {
            println!(rt; "{profile:<7}{operation:<21}{counts}")?;
        }
    }
    Ok(())
}

// How many demands have a reason, beside each load.
fn print_reasons(rt: &impl Print, tally: &CaseTally) -> io::Result<()> {
    for (reason, [neither, heating, cooling]) in REASONS.iter().zip(tally.reasons.iter()) {
        println!(rt; "{reason:<31}{neither:>6}  {heating:>6}  {cooling:>6}")?;
    }
    Ok(())
}

// Call by call, the cases with the fixed rate.
fn print_fixed_rates(rt: &impl Print, tally: &FixedRateTally) -> io::Result<()> {
    println!(rt; "with the fixed rate")?;
    println!(rt; "calls, refused           {}", tally.calls)?;
    println!(rt; "why, as with code 1      {}", tally.whys)?;
    println!(rt; "append, refused          {}", tally.appends)?;
    println!(rt; "take-up                  {}", tally.take_ups)?;
    println!(rt; "convert                  {}", tally.conversions)?;
    println!(rt; "convert, version 1       {}", tally.of_version_1)
}

pub fn print_cases(
    rt: &impl Print,
    tally: &CaseTally,
    fixed_rates: &FixedRateTally,
) -> io::Result<()> {
    println!(rt; "The oracle's cases")?;
    println!(rt; "profile call                 cases  acc.  ref.")?;
    print_table(rt, tally)?;
    println!(rt; "cases  {}", tally.differences)?;
    print_fixed_rates(rt, fixed_rates)?;
    println!(rt; "demands, by reason             neither heating cooling")?;
    print_reasons(rt, tally)?;
    println!(rt; "refused, by number")?;
    print!(rt; "{}", tally.numbers)
}

pub fn print_rows(rt: &impl Print, tally: &RowTally) -> io::Result<()> {
    println!(rt; "\nRefusals by the order of tests")?;
    for call in Call::ALL {
        println!(rt; "{call:<13}{:>6}", tally.calls[call as usize])?;
    }
    println!(rt; "rows         {}", tally.differences)?;
    println!(rt; "accepted     {:>6}", tally.numbers.accepted())?;
    println!(rt; "refused, by number")?;
    print!(rt; "{}", tally.numbers)
}
