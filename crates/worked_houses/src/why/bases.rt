// Setpoints are held against the air's temperature or the operative one, the supply against the air's by either basis. Free air is 27.
use crate::failure;
use crate::why::answers::print_why;
use crate::why::room::{Room, hour_of};
use zone::Load::{Cooling, Neither};
use zone::Reason::{
    NoChoice, NotAboveSupply, NotAboveVentilationSetpoint, StillAboveCoolingSetpoint, WindowsEnough,
};
use zone::ZoneTemperatureControlBasis::{Air, Operative};

// The operative temperature is (35 + 3 y) / 4: free 29, with one air change 26, with the windows open 23.
fn print_warm_surface(rt: &impl Print) -> failure::Result<()> {
    let higher = hour_of(18.0, 30.0, 28.0);
    let lower = hour_of(18.0, 22.0, 20.0);
    let between = hour_of(18.0, 25.0, 26.0);
    let fixed = hour_of(18.0, 28.0, 23.0).with_fixed_rate(0.0);
    let twice = fixed.with_rate_twice();
    println!(rt; "surface at 35 and air at 19; setpoints of heating, cooling and ventilation")?;
    for (asked, basis, hour, reason, load) in [
        (
            "  18/30/28, by air",
            Air,
            higher,
            NotAboveVentilationSetpoint,
            Neither,
        ),
        (
            "  by operative temperature",
            Operative,
            higher,
            WindowsEnough,
            Neither,
        ),
        (
            "  18/22/20, by air: found 20",
            Air,
            lower,
            WindowsEnough,
            Neither,
        ),
        (
            "  by operative: found 23",
            Operative,
            lower,
            StillAboveCoolingSetpoint,
            Cooling,
        ),
        (
            "  18/25/26, by air: found 26",
            Air,
            between,
            StillAboveCoolingSetpoint,
            Cooling,
        ),
        (
            "  by operative: found 26",
            Operative,
            between,
            StillAboveCoolingSetpoint,
            Cooling,
        ),
        ("  18/28/23, fixed 0, by air", Air, fixed, NoChoice, Neither),
        (
            "  by operative temperature",
            Operative,
            fixed,
            NoChoice,
            Cooling,
        ),
        ("  18/28/23, 0 and 0, by air", Air, twice, NoChoice, Neither),
        (
            "  by operative temperature",
            Operative,
            twice,
            NoChoice,
            Cooling,
        ),
    ] {
        print_why(rt, asked, Room::at(basis, 35.0, 19.0), hour, reason, load)?;
    }
    Ok(())
}

// Free air is held against the supply by either basis: 27 here, where the operative temperature is 29, and 27 there, where it is 25.
fn print_supply_between(rt: &impl Print) -> failure::Result<()> {
    let here = hour_of(18.0, 30.0, 24.0).with_supply(28.0);
    let there = hour_of(18.0, 24.75, 24.0).with_supply(26.0);
    println!(rt; "the same, supply 28")?;
    for (asked, basis) in [
        ("  18/30/24, by air", Air),
        ("  by operative temperature", Operative),
    ] {
        print_why(
            rt,
            asked,
            Room::at(basis, 35.0, 19.0),
            here,
            NotAboveSupply,
            Neither,
        )?;
    }
    println!(rt; "surface at 19 and air at 35, supply 26")?;
    for (asked, basis, reason, load) in [
        (
            "  18/24.75/24, by air: found 26.3",
            Air,
            StillAboveCoolingSetpoint,
            Cooling,
        ),
        (
            "  by operative: found 24.5",
            Operative,
            WindowsEnough,
            Neither,
        ),
    ] {
        print_why(rt, asked, Room::at(basis, 19.0, 35.0), there, reason, load)?;
    }
    Ok(())
}

pub fn print_bases(rt: &impl Print) -> failure::Result<()> {
    print_warm_surface(rt)?;
    print_supply_between(rt)
}
