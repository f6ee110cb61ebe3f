// Single fields: decimals, what is missing, ranges, and the order of their tests. The other fields of a line are good.
// Specification, Decimals of a weather file.
use crate::failure;
use crate::refusal::Cause;
use crate::table::value;
use crate::weather_lines::file::File;
use crate::weather_lines::read::{print_refused, weather_of};
use Cause::{WeatherAbsent, WeatherInvalid, WeatherMissing};

fn print_dry_bulbs(rt: &impl Print) -> failure::Result<()> {
    println!(rt; "dry bulbs as they are written")?;
    for (written, expected) in [
        ("0.1", 0.1),
        ("-0.1", -0.1),
        ("0", 0.0),
        ("-0", -0.0),
        ("-0.00", -0.0),
        ("20", 20.0),
        ("007.50", 7.5),
        ("100", 100.0),
        ("-100", -100.0),
        ("-99.9", -99.9),
        ("99.8", 99.8),
        ("99.8999999999", 99.8999999999),
        ("0.30000000000", 0.3),
        ("1.00000000001", 1.00000000001),
    ] {
        let came = weather_of(File::of_fields([written, "0", "0"]).bytes(), 1)?;
        value(rt, written, came.dry_bulb, expected, "")?;
    }
    Ok(())
}

fn print_radiations(rt: &impl Print) -> failure::Result<()> {
    println!(rt; "direct normal as it is written, then diffuse horizontal")?;
    for (written, expected) in [
        ("0", 0.0),
        ("-0", -0.0),
        ("99.9", 99.9),
        ("733.3", 733.3),
        ("2000", 2000.0),
        ("2000.0000000", 2000.0),
        ("000000000001", 1.0),
        ("0.33333333333", 0.33333333333),
    ] {
        let came = weather_of(File::of_fields(["0", written, "1"]).bytes(), 1)?;
        value(rt, written, came.direct_normal, expected, "")?;
        let came = weather_of(File::of_fields(["0", "1", written]).bytes(), 1)?;
        value(rt, written, came.diffuse_horizontal, expected, "")?;
    }
    Ok(())
}

// Not a decimal, thirteen digits, missing, out of range.
fn print_refused_dry_bulbs(rt: &impl Print) -> failure::Result<()> {
    for (asked, written, cause) in [
        ("dry bulb, empty", "", WeatherInvalid),
        ("dry bulb -", "-", WeatherInvalid),
        ("dry bulb --1", "--1", WeatherInvalid),
        ("dry bulb +5", "+5", WeatherInvalid),
        ("dry bulb 5.", "5.", WeatherInvalid),
        ("dry bulb .5", ".5", WeatherInvalid),
        ("dry bulb .", ".", WeatherInvalid),
        ("dry bulb 1.2.3", "1.2.3", WeatherInvalid),
        ("dry bulb 1e1", "1e1", WeatherInvalid),
        ("dry bulb a blank and 5", " 5", WeatherInvalid),
        ("dry bulb 5 and a blank", "5 ", WeatherInvalid),
        ("dry bulb nan", "nan", WeatherInvalid),
        ("dry bulb, a nul", "\0", WeatherInvalid),
        ("dry bulb 99.9", "99.9", WeatherMissing),
        ("dry bulb 099.90", "099.90", WeatherMissing),
        (
            "dry bulb 99.9 of twelve digits",
            "99.9000000000",
            WeatherMissing,
        ),
        (
            "dry bulb 99.9 of thirteen",
            "99.90000000000",
            WeatherInvalid,
        ),
        (
            "dry bulb 0 of thirteen digits",
            "0.000000000000",
            WeatherInvalid,
        ),
        ("dry bulb 100.1", "100.1", WeatherInvalid),
        ("dry bulb -100.1", "-100.1", WeatherInvalid),
        ("dry bulb 9999", "9999", WeatherInvalid),
    ] {
        print_refused(
            rt,
            asked,
            File::of_fields([written, "0", "0"]).bytes(),
            1,
            cause,
        )?;
    }
    Ok(())
}

fn print_refused_radiations(rt: &impl Print) -> failure::Result<()> {
    for (asked, written, cause) in [
        ("direct normal 9999", "9999", WeatherMissing),
        ("direct normal 9999.00", "9999.00", WeatherMissing),
        ("direct normal 9998", "9998", WeatherInvalid),
        ("direct normal -9999", "-9999", WeatherInvalid),
        ("direct normal 2000.1", "2000.1", WeatherInvalid),
        ("direct normal -0.1", "-0.1", WeatherInvalid),
        (
            "direct normal 999900000000e",
            "999900000000e",
            WeatherInvalid,
        ),
    ] {
        print_refused(
            rt,
            asked,
            File::of_fields(["0", written, "0"]).bytes(),
            1,
            cause,
        )?;
    }
    Ok(())
}

// tested one by one in file order, and 21 before them.
fn print_order(rt: &impl Print) -> failure::Result<()> {
    for (asked, fields, cause) in [
        ("99.9, x, x", ["99.9", "x", "x"], WeatherMissing),
        ("x, 9999, 9999", ["x", "9999", "9999"], WeatherInvalid),
        ("0, 9999, x", ["0", "9999", "x"], WeatherMissing),
        ("0, x, 9999", ["0", "x", "9999"], WeatherInvalid),
        ("0, 0, 9999", ["0", "0", "9999"], WeatherMissing),
        ("0, 0, 2001", ["0", "0", "2001"], WeatherInvalid),
    ] {
        print_refused(rt, asked, File::of_fields(fields).bytes(), 1, cause)?;
    }
    let without_sixteenth = File::of(&["\n\n\n\n\n\n\n\n,,,,,,x,,,,,,,,9999\n"]);
    print_refused(
        rt,
        "x, 9999, no sixteenth",
        without_sixteenth.bytes(),
        1,
        WeatherAbsent,
    )?;
    Ok(())
}

pub fn print_fields(rt: &impl Print) -> failure::Result<()> {
    print_dry_bulbs(rt)?;
    print_radiations(rt)?;
    print_refused_dry_bulbs(rt)?;
    print_refused_radiations(rt)?;
    print_order(rt)
}
