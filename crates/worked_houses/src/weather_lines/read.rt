// A row for each number of a line, or for its refusal: what came, and what is expected.
use crate::failure;
use crate::refusal::{Cause, Refusal};
use crate::replies::number_of;
use crate::table::{row, value};
use std::io;
use weather::{Weather, read_weather};

pub fn weather_of(file: &[u8], line: u64) -> Result<Weather, Refusal> {
    Ok(read_weather(file, line)?)
}

pub fn print_weather(
    rt: &impl Print,
    asked: &str,
    file: &[u8],
    line: u64,
    expected: [f64; 3],
) -> failure::Result<()> {
    let came = weather_of(file, line)?;
    let [dry_bulb, direct_normal, diffuse_horizontal] = expected;
    println!(rt; "{asked}")?;
    value(rt, "  dry bulb", came.dry_bulb, dry_bulb, "")?;
    value(rt, "  direct normal", came.direct_normal, direct_normal, "")?;
    value(
        rt,
        "  diffuse horizontal",
        came.diffuse_horizontal,
        diffuse_horizontal,
        "",
    )?;
    Ok(())
}

pub fn print_refused(
    rt: &impl Print,
    asked: &str,
    file: &[u8],
    line: u64,
    expected: Cause,
) -> io::Result<()> {
    row(
        rt,
        asked,
        number_of(&weather_of(file, line)),
        expected as u32,
    )
}
