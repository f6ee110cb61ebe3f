// House P in version 3, met by a plant with limits (Specification, Limits of the plant), worked out by hand.
//
// From balance let y be the air and x the inner surface above 20, A what of the total gains goes to the air and B what goes
// to the surface. Air: (100 + 43.0625) y + 2.5 (y - x) = A, where 100 W/K are its capacity over the hour and 43.0625 W/K the
// bridges. Inner surface: 4 x = 2.5 y + B. So 144 y = A + 0.625 B and x = 0.625 y + 0.25 B; the outer surface lies halfway
// from 20 to the inner one. All power by convection: 144 W for a degree of the air.
use crate::bytes::Hour;
use crate::failure;
use crate::house_p::house::{HOUSE_P, hour_of, start};
use crate::house_p::met::{Detail, Met, print_hour};
use crate::limits::{MOST, Meeting};
use crate::table::{holds, shown};
use crate::zone_read::ZoneRead;
use Detail::{NoMore, Temperatures, TemperaturesAndLosses};

// What 21 asks of House P in balance, and 19, kWh.
const ASKED: f64 = 144.0 / 1000.0;

// The floats next to 144.
const JUST_BELOW: f64 = 143.99999999999997;

const JUST_ABOVE: f64 = 144.00000000000003;

// A distance in kWh that is no more than rounding.
const ROUNDING: f64 = 1e-12;

// All by convection: A is the power and B is 0.
fn convective(heating: f64, cooling: f64, power: f64) -> Met {
    let air = power / 144.0;
    Met {
        heating,
        cooling,
        outer: 0.3125 * air,
        inner: 0.625 * air,
        air,
        gains: power,
        to_air: power,
    }
}

// Rows of hours with the same conditions; in each all power is by convection, and this is the power that is left.
fn print_rows(
    rt: &impl Print,
    zone: &ZoneRead,
    hour: Hour,
    heating: f64,
    cooling: f64,
    rows: &[(&str, Meeting, f64, Detail)],
) -> failure::Result<()> {
    let conditions = hour.conditions();
    for (title, meeting, power, detail) in rows {
        println!(rt; "{title}")?;
        let expected = convective(heating, cooling, *power);
        print_hour(rt, zone, &conditions, *meeting, expected, *detail)?;
    }
    Ok(())
}

// The float below 144 lets the temperatures be; the gains are its own.
fn print_heated(rt: &impl Print, zone: &ZoneRead) -> failure::Result<()> {
    print_rows(
        rt,
        zone,
        hour_of(21.0, 24.0),
        ASKED,
        0.0,
        &[
            (
                "setpoints 21/24, version 2",
                Meeting::unlimited(2),
                144.0,
                Temperatures,
            ),
            (
                "version 3, heating limit 72 W: it holds",
                Meeting::limited(72.0, MOST),
                72.0,
                TemperaturesAndLosses,
            ),
            (
                "heating limit 36 W, cooling limit 0",
                Meeting::limited(36.0, 0.0),
                36.0,
                Temperatures,
            ),
            (
                "heating limit 144 W: met, and does not hold",
                Meeting::limited(144.0, 0.0),
                144.0,
                Temperatures,
            ),
            (
                "the float above 144",
                Meeting::limited(JUST_ABOVE, 0.0),
                144.0,
                Temperatures,
            ),
            (
                "both limits 1e7",
                Meeting::limited(MOST, MOST),
                144.0,
                Temperatures,
            ),
            (
                "both limits 0",
                Meeting::limited(0.0, 0.0),
                0.0,
                Temperatures,
            ),
            (
                "the float below 144: it holds",
                Meeting::limited(JUST_BELOW, MOST),
                JUST_BELOW,
                NoMore,
            ),
        ],
    )
}

// In the last two rows the power is -0.0, and the gains are 0.0 + -0.0.
fn print_cooled(rt: &impl Print, zone: &ZoneRead) -> failure::Result<()> {
    print_rows(
        rt,
        zone,
        hour_of(15.0, 19.0),
        0.0,
        -ASKED,
        &[
            (
                "setpoints 15/19, version 3, cooling limit 72 W: it holds",
                Meeting::limited(0.0, 72.0),
                -72.0,
                TemperaturesAndLosses,
            ),
            (
                "cooling limit 144 W: met, and does not hold",
                Meeting::limited(0.0, 144.0),
                -144.0,
                Temperatures,
            ),
            (
                "cooling limit 0, heating limit 1e7",
                Meeting::limited(MOST, 0.0),
                0.0,
                Temperatures,
            ),
            (
                "cooling limit -0.0",
                Meeting::limited(MOST, -0.0),
                0.0,
                Temperatures,
            ),
        ],
    )
}

// 12 W by 0.5 beside 48 W to the air and 12 W to the surfaces: A is 54, B is 18.
fn by_halves(heating: f64, cooling: f64, sign: f64) -> Met {
    Met {
        heating,
        cooling,
        outer: sign * 2.3916015625,
        inner: sign * 4.783203125,
        air: sign * 0.453125,
        gains: sign * 72.0,
        to_air: sign * 54.0,
    }
}

// Power w by 0.5 alone warms the air by 0.8125 w / 144, the other gains by 55.5 / 144; for a degree 1416/13 W are asked. No
// float is that: the demand that is reported must be the demand call's, to the bit.
fn print_asked(
    rt: &impl Print,
    zone: &ZoneRead,
    conditions: &[u8],
    sign: f64,
) -> failure::Result<f64> {
    let demand = zone.demand(start(), conditions)?;
    let asked = demand.space_heat_demand + demand.space_cool_demand;
    let off = asked - sign * 1.416 / 13.0;
    shown(rt, "  asked, kWh", asked)?;
    holds(rt, "  1416/13 W", off.abs() < ROUNDING)?;
    Ok(asked)
}

// Shares follow version 2, of the power after the limit: 54 of 72 W go to the air, where the demand's share would be
// 0.61 and that of the other fraction 0.83.
fn print_shares(rt: &impl Print, zone: &ZoneRead) -> failure::Result<()> {
    let heated = Hour {
        heating_fraction: 0.5,
        convective: 48.0,
        radiative: 12.0,
        ..hour_of(21.0, 24.0)
    };
    println!(rt; "with other gains of 48 and 12 W, heating fraction 0.5, heating limit 12 W")?;
    let conditions = heated.conditions();
    let expected = by_halves(print_asked(rt, zone, &conditions, 1.0)?, 0.0, 1.0);
    let meeting = Meeting::limited(12.0, 0.0);
    print_hour(
        rt,
        zone,
        &conditions,
        meeting,
        expected,
        TemperaturesAndLosses,
    )?;
    let cooled = Hour {
        cooling_fraction: 0.5,
        convective: -48.0,
        radiative: -12.0,
        ..hour_of(15.0, 19.0)
    };
    println!(rt; "with -48 and -12 W, cooling fraction 0.5, cooling limit 12 W")?;
    let conditions = cooled.conditions();
    let expected = by_halves(0.0, print_asked(rt, zone, &conditions, -1.0)?, -1.0);
    let meeting = Meeting::limited(0.0, 12.0);
    print_hour(
        rt,
        zone,
        &conditions,
        meeting,
        expected,
        TemperaturesAndLosses,
    )
}

// Nothing is delivered, and other gains of -0.0 twice show the sign of that zero: beside them the power 0.0 makes the
// total 0.0. A delivered 0 is beyond no limit, so it does not become the limit -0.0, with which the total would be -0.0.
fn print_no_power(rt: &impl Print, zone: &ZoneRead) -> failure::Result<()> {
    let hour = Hour {
        convective: -0.0,
        radiative: -0.0,
        ..hour_of(20.0, 24.0)
    };
    let title = "setpoints 20/24, both limits -0.0: nothing is delivered";
    let rows = [(title, Meeting::limited(-0.0, -0.0), 0.0, NoMore)];
    print_rows(rt, zone, hour, 0.0, 0.0, &rows)
}

// With versions 1 and 2 limits are not looked at: 0 would let nothing be delivered.
fn print_earlier(rt: &impl Print, zone: &ZoneRead) -> failure::Result<()> {
    print_rows(
        rt,
        zone,
        hour_of(21.0, 24.0),
        ASKED,
        0.0,
        &[
            (
                "version 1, both limits 0",
                Meeting::with(1, 0.0, 0.0),
                144.0,
                Temperatures,
            ),
            (
                "version 2, both limits 0",
                Meeting::with(2, 0.0, 0.0),
                144.0,
                Temperatures,
            ),
            (
                "version 1, both limits no number",
                Meeting::unlimited(1),
                144.0,
                Temperatures,
            ),
        ],
    )
}

pub fn print_limited(rt: &impl Print) -> failure::Result<()> {
    let head = HOUSE_P.head();
    let zone = ZoneRead::read(&head)?;
    print_heated(rt, &zone)?;
    print_cooled(rt, &zone)?;
    print_shares(rt, &zone)?;
    print_no_power(rt, &zone)?;
    print_earlier(rt, &zone)
}
