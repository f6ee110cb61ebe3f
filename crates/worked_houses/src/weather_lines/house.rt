// A house in the weather of a line, worked out by hand: House P, whose surface absorbs half of the sun.
//
// Outside it is d above 20, the surface absorbs S; from balance let y be the air and x the inner surface above 20. Air:
// (100 + 43.0625) y + 2.5 (y - x) = A + 43.0625 d, where A is the power and 43.0625 W/K are the bridges. The outer surface lies halfway from
// d + S to the inner one, and 4 x = 2.5 y + (d + S) / 2. So 144 y = A + 43.375 d + 0.3125 S. At 2 degrees with 96 W/m2 direct and 48 W/m2
// diffuse d is -18 and S is 72: 144 y = A - 758.25.
use crate::bytes::{Element, Hour, head_of};
use crate::failure;
use crate::house_p::house::{HEAD, hour_of, start};
use crate::limits::{MOST, Meeting};
use crate::refusal::{Answer, Refusal};
use crate::table::{decimals, row};
use crate::weather_lines::file::File;
use crate::weather_lines::read::weather_of;
use crate::why::answers::{Because, why};
use crate::zone_read::ZoneRead;
use weather::Weather;
use zone::{Load, Reason, ZoneTemperatureControlBasis as Basis};

// Heating to 20 needs it all, and 360 W leave the rest of it.
const ASKED: f64 = 758.25 / 1000.0;

const LIMIT: f64 = 360.0;

const LEFT: f64 = (LIMIT - 758.25) / 144.0;

fn head() -> [u8; HEAD] {
    let numbers = [0, 0, 0, 176, 1, Basis::Air as u8, 1, 0, 10];
    let mut element = Element::surface(1.0, 90.0, 1.0, 3600.0);
    element.values[5] = 0.5;
    element.first_hour = [20.0, 0.0, 0.0, 1.0, 1.0];
    head_of(numbers, [36.0, 100.0, 43.0625, 20.0, 20.0], &[element])
}

// What the weather is in an hour: outside, at the surface, of the supplied air, and the sun on it.
fn in_weather(hour: Hour, weather: Weather) -> Hour {
    Hour {
        external: weather.dry_bulb,
        supply: weather.dry_bulb,
        part: [
            weather.dry_bulb,
            weather.direct_normal,
            weather.diffuse_horizontal,
            1.0,
            1.0,
        ],
        ..hour
    }
}

// The air is left at 20, or where the limit leaves it; the demand is the same.
fn print_versions(rt: &impl Print, zone: &ZoneRead, conditions: &[u8]) -> failure::Result<()> {
    for (asked, meeting, above) in [
        ("  version 1, air", Meeting::unlimited(1), 0.0),
        ("  version 2, air", Meeting::unlimited(2), 0.0),
        ("  version 3, limits 1e7", Meeting::limited(MOST, MOST), 0.0),
        (
            "  version 3, heating limit 360 W",
            Meeting::limited(LIMIT, 0.0),
            LEFT,
        ),
    ] {
        let step = zone.hour_step(start(), conditions, meeting);
        let (demand, _) = step.answer.map_err(Refusal::from)?;
        decimals(rt, asked, step.state.temps[2], 20.0 + above)?;
        decimals(rt, "    heating, kWh", demand.space_heat_demand, ASKED)?;
    }
    Ok(())
}

// The ends of the ranges (Specification, Ranges) are good weather, and a good hour.
fn print_accepted(rt: &impl Print, zone: &ZoneRead) -> failure::Result<()> {
    for (asked, fields) in [
        ("an hour at -100", ["-100", "0", "-0"]),
        ("an hour at 100, 2,000 and 2,000", ["100", "2000", "2000"]),
        ("an hour at -0, -0 and -0", ["-0", "-0", "-0"]),
    ] {
        let weather = weather_of(File::of_fields(fields).bytes(), 1)?;
        let hour = in_weather(hour_of(-200.0, 1000000.0), weather);
        let demand = zone.demand(start(), &hour.conditions()).map(|_| "a demand");
        row(rt, asked, Answer(demand), Answer(Ok("a demand")))?;
    }
    Ok(())
}

pub fn print_house(rt: &impl Print) -> failure::Result<()> {
    let head = head();
    let zone = ZoneRead::read(&head)?;
    let weather = weather_of(File::of_fields(["2.0", "96", "48"]).bytes(), 1)?;
    let hour = in_weather(hour_of(20.0, 24.0), weather);
    let conditions = hour.conditions();
    let fixed = hour.with_fixed_rate(0.0).conditions();
    println!(rt; "the hour of 2.0, 96 and 48")?;
    print_versions(rt, &zone, &conditions)?;
    let expected = Ok(Because(Reason::NoChoice, Load::Heating));
    why(rt, "  reason", &zone, start(), &conditions, expected)?;
    why(
        rt,
        "  with a fixed rate of 0",
        &zone,
        start(),
        &fixed,
        expected,
    )?;
    print_accepted(rt, &zone)
}
