// h_ci with the direction of heat flow that it is for: House P's four pitches, then others of each direction.
// Specification, House P; Direction of heat flow and h_ci.
use crate::table::{row, value};
use std::io;
use zone::HeatFlowDirection::{self, Downwards, Horizontal, Upwards};

fn name_of(direction: HeatFlowDirection) -> &'static str {
    match direction {
        Horizontal => "horizontal",
        Upwards => "upwards",
        Downwards => "downwards",
    }
}

// Its h_ci, and that in words.
fn expected_h_ci(direction: HeatFlowDirection) -> (f64, &'static str) {
    match direction {
        Horizontal => (2.5, "2.5"),
        Upwards => (5.0, "5.0"),
        Downwards => (0.7, "0.7"),
    }
}

// The surface is at 20: in the first six rows, which have House P's pitches, the air is not colder. A ceiling has pitch 0, a
// wall 90, a floor 180.
pub fn print_h_ci(rt: &impl Print) -> io::Result<()> {
    for (asked, pitch, air, direction) in [
        ("h_ci at pitch 60", 60.0, 20.0, Horizontal),
        ("h_ci at pitch 120", 120.0, 20.0, Horizontal),
        ("h_ci at pitch 59.9", 59.9, 20.0, Upwards),
        ("h_ci at pitch 120.1", 120.1, 20.0, Downwards),
        (
            "h_ci, the float below pitch 60",
            59.99999999999999,
            20.0,
            Upwards,
        ),
        (
            "h_ci, the float above pitch 120",
            120.00000000000001,
            20.0,
            Downwards,
        ),
        ("h_ci of a ceiling, air colder", 0.0, 19.0, Downwards),
        ("h_ci of a wall, air colder", 90.0, 19.0, Horizontal),
        ("h_ci of a floor, air colder", 180.0, 19.0, Upwards),
        ("h_ci of a ceiling, air warmer", 0.0, 21.0, Upwards),
        ("h_ci of a wall, air warmer", 90.0, 21.0, Horizontal),
        ("h_ci of a floor, air warmer", 180.0, 21.0, Downwards),
    ] {
        let came = zone::h_ci(zone::standard_coefficients(), pitch, air, 20.0);
        let (h_ci, words) = expected_h_ci(direction);
        value(rt, asked, came.h_ci, h_ci, words)?;
        row(
            rt,
            "  direction",
            name_of(came.direction),
            name_of(direction),
        )?;
    }
    Ok(())
}
