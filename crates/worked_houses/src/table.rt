// A row of the table: what is asked, what came, what is expected.
use std::fmt::Display;
use std::io;
use std::num::f64_to_bits_with_nan;

// A house's name, and the columns of its rows.
pub fn heading(rt: &impl Print, house: &str) -> io::Result<()> {
    println!(rt; "{house}\n{:<33}{:>18}          expected", "asked", "came")
}

fn verdict(holds: bool) -> &'static str {
    if holds { "ok" } else { "NOT AS EXPECTED" }
}

// A count, or what has a column of eighteen of its own.
pub fn row<T: Display + PartialEq + Drop>(
    rt: &impl Print,
    asked: &str,
    came: T,
    expected: T,
) -> io::Result<()> {
    let verdict = verdict(came == expected);
    println!(rt; "{asked:<33}{came:>18}{expected:>18}{:15}{verdict}", "")
}

// A value: its bits and those expected, with the expected value in words.
pub fn value(
    rt: &impl Print,
    asked: &str,
    came: f64,
    expected: f64,
    words: &str,
) -> io::Result<()> {
    let came = f64_to_bits_with_nan(came);
    let bits = f64_to_bits_with_nan(expected);
    let verdict = verdict(came == bits);
    println!(rt; "{asked:<33}  {came:016x}  {bits:016x}  {words:<13}{verdict}")
}

// To the nearest thousandth, of two the one farther from 0; 0.0 for -0.0.
fn to_thousandths(x: f64) -> f64 {
    (x * 1000.0).round() / 1000.0 + 0.0
}

// The same, the expected value in decimals.
pub fn decimals(rt: &impl Print, asked: &str, came: f64, expected: f64) -> io::Result<()> {
    let came = f64_to_bits_with_nan(came);
    let bits = f64_to_bits_with_nan(expected);
    let verdict = verdict(came == bits);
    let rounded = to_thousandths(expected);
    println!(rt; "{asked:<33}  {came:016x}  {bits:016x}{rounded:>10.3}     {verdict}")
}

// A value with nothing to be laid beside: in decimals, and its bits where other rows have what came.
pub fn shown(rt: &impl Print, asked: &str, x: f64) -> io::Result<()> {
    let bits = f64_to_bits_with_nan(x);
    let rounded = to_thousandths(x);
    println!(rt; "{asked:<24}{rounded:>10.3}  {bits:016x}")
}

pub fn holds(rt: &impl Print, said: &str, holds: bool) -> io::Result<()> {
    println!(rt; "{said}  {}", verdict(holds))
}
