// Lines of files: how they end, how they are counted, and headers.
use crate::failure;
use crate::refusal::Cause::{WeatherAbsent, WeatherInvalid};
use crate::weather_lines::file::File;
use crate::weather_lines::read::{print_refused, print_weather};

// Headers as they are found: a byte order mark, commas, quotes, and an empty one.
const HEADERS: &str =
    "\u{feff}LOCATION,X\n,\n\n\"a, b\"\nCOMMENTS 1,\"20\n,,,,,,1,,,,,,,,2,3\n\nDATA\n";

const FIRST: &str = "1999,1,1,1,60,?9,-4.5,,,,,,,,0,0";

const SECOND: &str = ",,,,,,20.25,,,,,,,,640.5,95,,,x";

const FIRST_NUMBERS: [f64; 3] = [-4.5, 0.0, 0.0];

const SECOND_NUMBERS: [f64; 3] = [20.25, 640.5, 95.0];

// Each way of ending lines, and what stands at the end of the file.
fn print_ends(rt: &impl Print) -> failure::Result<()> {
    for (asked, end, last) in [
        ("line 2, LF", "\n", "\n"),
        ("line 2, CR LF", "\r\n", "\r\n"),
        ("line 2, LF and the end of the file", "\n", ""),
        ("line 2, CR LF and the end", "\r\n", ""),
    ] {
        let file = File::of(&[HEADERS, FIRST, end, SECOND, last]);
        print_weather(rt, asked, file.bytes(), 2, SECOND_NUMBERS)?;
    }
    Ok(())
}

// A carriage return belongs to the end of a line only where a line feed follows, and only one.
fn print_returns(rt: &impl Print) -> failure::Result<()> {
    for (asked, end) in [
        ("CR and the end of the file", "\r"),
        ("CR CR LF", "\r\r\n"),
        ("CR, a blank and LF", "\r \n"),
    ] {
        let file = File::of(&[HEADERS, FIRST, end]);
        print_refused(rt, asked, file.bytes(), 1, WeatherInvalid)?;
    }
    Ok(())
}

fn print_counted(rt: &impl Print) -> failure::Result<()> {
    let file = File::of(&[HEADERS, FIRST, "\n", SECOND, "\n"]);
    print_weather(rt, "line 1", file.bytes(), 1, FIRST_NUMBERS)?;
    for (asked, line) in [
        ("line 0", 0),
        ("line 3", 3),
        ("line 2^64 - 1", u64::MAX),
        ("line 2^64 - 8", u64::MAX - 7),
    ] {
        print_refused(rt, asked, file.bytes(), line, WeatherAbsent)?;
    }
    Ok(())
}

// An empty file, headers alone, a header too few, and lines without enough fields.
fn print_short(rt: &impl Print) -> failure::Result<()> {
    for (asked, file) in [
        ("an empty file", File::of(&[])),
        ("headers alone", File::of(&[HEADERS])),
        ("seven headers", File::of(&["\n\n\n\n\n\n\n", FIRST, "\n"])),
        ("an empty line", File::of(&[HEADERS, "\n", FIRST, "\n"])),
        ("fifteen fields", File::of(&[HEADERS, ",,,,,,1,,,,,,,,2\n"])),
        (
            "fifteen, and the next line",
            File::of(&[HEADERS, ",,,,,,1,,,,,,,,2\n,3\n"]),
        ),
    ] {
        print_refused(rt, asked, file.bytes(), 1, WeatherAbsent)?;
    }
    let short = File::of(&[HEADERS, ",,\n", SECOND]);
    print_weather(
        rt,
        "the line behind a short one",
        short.bytes(),
        2,
        SECOND_NUMBERS,
    )
}

pub fn print_lines(rt: &impl Print) -> failure::Result<()> {
    print_ends(rt)?;
    print_returns(rt)?;
    print_counted(rt)?;
    print_short(rt)
}
