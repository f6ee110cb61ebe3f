// The first four reasons, which no rate has to be found for, with each load that can stand beside them.
use crate::bytes::Hour;
use crate::failure;
use crate::why::answers::print_hours;
use crate::why::room::{Room, hour_of};
use crate::zone_read::NO_CONTROL;
use zone::AirChangesPerHourArgument as Rates;
use zone::Load::{Cooling, Heating, Neither};
use zone::Reason::{
    NoChoice, NotAboveSupply, NotAboveVentilationSetpoint, WindowsDoNotCool, WindowsEnough,
};

const BELOW_27: f64 = 26.999999999999996;

// Free is 27. No call takes a fixed rate any more, but why such an hour is what it is is still told, and is the same as where target and windows open both
// are the rate.
fn print_at_0(rt: &impl Print, title: &str, rates: Rates) -> failure::Result<()> {
    let hour = |heat, cool, vent| Hour {
        rates,
        ..hour_of(heat, cool, vent)
    };
    print_hours(
        rt,
        title,
        Room::warm(),
        &[
            (
                "  setpoints 18/25",
                hour(18.0, 25.0, 23.0),
                NoChoice,
                Cooling,
            ),
            ("  18/28", hour(18.0, 28.0, 23.0), NoChoice, Neither),
            (
                "  28/30, ventilation 30",
                hour(28.0, 30.0, 30.0),
                NoChoice,
                Heating,
            ),
        ],
    )
}

fn print_no_choice(rt: &impl Print) -> failure::Result<()> {
    print_at_0(rt, "a fixed rate of 0: free 27", Rates::Cooling(0.0))?;
    let twice = Rates::TargetAndWindowsOpen(0.0, 0.0);
    print_at_0(rt, "target and windows open 0: free 27", twice)?;
    print_hours(
        rt,
        "target and windows open 4: free 19",
        Room::warm(),
        &[
            (
                "  18/18.5",
                hour_of(18.0, 18.5, 18.5).with_rates(4.0, 4.0),
                NoChoice,
                Cooling,
            ),
            (
                "  18/25",
                hour_of(18.0, 25.0, 18.5).with_rates(4.0, 4.0),
                NoChoice,
                Neither,
            ),
            (
                "  20/25",
                hour_of(20.0, 25.0, 23.0).with_rates(4.0, 4.0),
                NoChoice,
                Heating,
            ),
        ],
    )
}

// Zeros of either sign are equal, and a fixed rate may have either.
fn print_zeros(rt: &impl Print) -> failure::Result<()> {
    print_hours(
        rt,
        "rates of 0: free 27",
        Room::warm(),
        &[
            (
                "  0.0 and -0.0",
                hour_of(18.0, 25.0, 23.0).with_rates(0.0, -0.0),
                NoChoice,
                Cooling,
            ),
            (
                "  -0.0 and 0.0",
                hour_of(18.0, 25.0, 23.0).with_rates(-0.0, 0.0),
                NoChoice,
                Cooling,
            ),
            (
                "  -0.0, fixed",
                hour_of(18.0, 25.0, 23.0).with_fixed_rate(-0.0),
                NoChoice,
                Cooling,
            ),
            (
                "  -0.0 and -0.0",
                hour_of(18.0, 25.0, 23.0).with_rates(-0.0, -0.0),
                NoChoice,
                Cooling,
            ),
        ],
    )
}

fn print_not_above_setpoint(rt: &impl Print) -> failure::Result<()> {
    print_hours(
        rt,
        "ventilation setpoint 27: free is not above it",
        Room::warm(),
        &[
            (
                "  setpoints 18/25",
                hour_of(18.0, 25.0, 27.0),
                NotAboveVentilationSetpoint,
                Cooling,
            ),
            (
                "  18/28",
                hour_of(18.0, 28.0, 27.0),
                NotAboveVentilationSetpoint,
                Neither,
            ),
            (
                "  28/30, ventilation 28",
                hour_of(28.0, 30.0, 28.0),
                NotAboveVentilationSetpoint,
                Heating,
            ),
            (
                "  18/25, no ventilation setpoint",
                hour_of(18.0, 25.0, NO_CONTROL),
                NotAboveVentilationSetpoint,
                Cooling,
            ),
            (
                "  18/28, the float below 27",
                hour_of(18.0, 28.0, BELOW_27),
                WindowsEnough,
                Neither,
            ),
        ],
    )
}

fn print_not_above_supply(rt: &impl Print) -> failure::Result<()> {
    print_hours(
        rt,
        "supply 27: free air is not above it",
        Room::warm(),
        &[
            (
                "  setpoints 18/25",
                hour_of(18.0, 25.0, 23.0).with_supply(27.0),
                NotAboveSupply,
                Cooling,
            ),
            (
                "  18/28",
                hour_of(18.0, 28.0, 23.0).with_supply(27.0),
                NotAboveSupply,
                Neither,
            ),
        ],
    )?;
    print_hours(
        rt,
        "supply 30: with the windows open 29",
        Room::warm(),
        &[
            (
                "  18/25",
                hour_of(18.0, 25.0, 23.0).with_supply(30.0),
                NotAboveSupply,
                Cooling,
            ),
            (
                "  18/28",
                hour_of(18.0, 28.0, 23.0).with_supply(30.0),
                NotAboveSupply,
                Neither,
            ),
        ],
    )
}

// 5e-324 is the smallest rate: beside 80 W/K it is nothing.
fn print_windows_do_not_cool(rt: &impl Print) -> failure::Result<()> {
    print_hours(
        rt,
        "target 4 and windows open 0: free 19, open 27",
        Room::warm(),
        &[
            (
                "  setpoints 18/18.75",
                hour_of(18.0, 18.75, 18.5).with_rates(4.0, 0.0),
                WindowsDoNotCool,
                Cooling,
            ),
            (
                "  18/25",
                hour_of(18.0, 25.0, 18.5).with_rates(4.0, 0.0),
                WindowsDoNotCool,
                Neither,
            ),
        ],
    )?;
    print_hours(
        rt,
        "target 0 and windows open 5e-324: free 27, open 27",
        Room::warm(),
        &[
            (
                "  18/25",
                hour_of(18.0, 25.0, 23.0).with_rates(0.0, 5e-324),
                WindowsDoNotCool,
                Cooling,
            ),
            (
                "  18/28",
                hour_of(18.0, 28.0, 23.0).with_rates(0.0, 5e-324),
                WindowsDoNotCool,
                Neither,
            ),
        ],
    )
}

pub fn print_reasons(rt: &impl Print) -> failure::Result<()> {
    print_no_choice(rt)?;
    print_zeros(rt)?;
    print_not_above_setpoint(rt)?;
    print_not_above_supply(rt)?;
    print_windows_do_not_cool(rt)
}
