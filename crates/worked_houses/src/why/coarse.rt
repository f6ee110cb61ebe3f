// Windows enough, and the hour is heated all the same.
//
// The room's surface is huge, holds nothing and lets nothing through: 163840 W/K of convection, by which it always has the air's
// temperature. The air's own coefficient is 163840 W/K with some 2^-35 W/K more, the unit in which floats of that size are counted.
// Its capacity over the hour is one unit, and each air change an hour is one: y = y0 / n, where n is 1 + the rate in whole units. From
// 32, with a supply at 0, it is free at 32, and with the windows open, rate 3, at 8. Half of the way is 20, for which the rate found is
// 0.6: 1.6 units are counted as 2, and found is 16.
use crate::bytes::Hour;
use crate::failure;
use crate::why::answers::print_hours;
use crate::why::room::{Room, hour_of};
use crate::why::temperatures::print_rows;
use zone::Load::{Heating, Neither};
use zone::Reason::WindowsEnough;
use zone::ZoneTemperatureControlBasis::Air;

// 2 to the power -35 W/K.
const UNIT: f64 = 2.9103830456733704e-11;

// 10000 J/(m2 K) of useful area, and 1.204 * 1006 J/(m3 K) of air, over 3600 s: a unit each.
const USEFUL_AREA: f64 = 0.36 * UNIT;

const VOLUME: f64 = 3600.0 / 1211.224 * UNIT;

fn huge_surface(air: f64) -> Room {
    Room {
        basis: Air,
        surface: air,
        air,
        area: 65536.0,
        k: 0.0,
        useful_area: USEFUL_AREA,
        volume: VOLUME,
    }
}

fn windows(heat: f64, cool: f64, vent: f64) -> Hour {
    hour_of(heat, cool, vent)
        .with_supply(0.0)
        .with_rates(0.0, 3.0)
}

pub fn print_coarse(rt: &impl Print) -> failure::Result<()> {
    let room = huge_surface(32.0);
    print_rows(
        rt,
        "a room with a huge surface at 32, supply 0, without demand",
        room,
        0.0,
        &[
            ("  air, no ventilation", Air, 0.0, 32.0),
            ("  with three air changes", Air, 3.0, 8.0),
            ("  with 0.6, found for 20", Air, 0.6, 16.0),
        ],
    )?;
    print_hours(
        rt,
        "free 32, found 16",
        room,
        &[
            (
                "  setpoints 20/30",
                windows(20.0, 30.0, 20.0),
                WindowsEnough,
                Heating,
            ),
            ("  20/20", windows(20.0, 20.0, 20.0), WindowsEnough, Heating),
            ("  16/30", windows(16.0, 30.0, 20.0), WindowsEnough, Neither),
        ],
    )?;
    Ok(())
}
