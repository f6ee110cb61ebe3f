// Hours of the room at 27 for which two reasons hold or more: the earliest is named. Free is 27 and with the windows open 19, if
// nothing else is said.
use crate::failure;
use crate::why::answers::print_hours;
use crate::why::room::{Room, hour_of};
use crate::zone_read::NO_CONTROL;
use zone::Load::{Cooling, Neither};
use zone::Reason::{NoChoice, NotAboveSupply, NotAboveVentilationSetpoint, WindowsDoNotCool};

// With two air changes free is 21.
fn print_no_choice_first(rt: &impl Print) -> failure::Result<()> {
    print_hours(
        rt,
        "no choice of rates",
        Room::warm(),
        &[
            (
                "  and free not above setpoint",
                hour_of(18.0, 25.0, NO_CONTROL).with_fixed_rate(0.0),
                NoChoice,
                Cooling,
            ),
            (
                "  and the same, 0 and 0",
                hour_of(18.0, 25.0, NO_CONTROL).with_rates(0.0, 0.0),
                NoChoice,
                Cooling,
            ),
            (
                "  and not above setpoint, 2 and 2",
                hour_of(18.0, 25.0, 21.0).with_rates(2.0, 2.0),
                NoChoice,
                Neither,
            ),
            (
                "  and free air not above supply",
                hour_of(18.0, 25.0, 23.0)
                    .with_supply(30.0)
                    .with_fixed_rate(0.0),
                NoChoice,
                Cooling,
            ),
            (
                "  and the same, 0 and 0",
                hour_of(18.0, 25.0, 23.0)
                    .with_supply(30.0)
                    .with_rates(0.0, 0.0),
                NoChoice,
                Cooling,
            ),
            (
                "  and windows do not cool",
                hour_of(18.0, 25.0, 20.0).with_rates(2.0, 2.0),
                NoChoice,
                Neither,
            ),
            (
                "  and still above",
                hour_of(18.0, 20.5, 20.0).with_rates(2.0, 2.0),
                NoChoice,
                Cooling,
            ),
        ],
    )
}

fn print_setpoint_first(rt: &impl Print) -> failure::Result<()> {
    print_hours(
        rt,
        "free not above ventilation setpoint",
        Room::warm(),
        &[
            (
                "  and free air not above supply",
                hour_of(18.0, 28.0, 27.0).with_supply(30.0),
                NotAboveVentilationSetpoint,
                Neither,
            ),
            (
                "  and windows do not cool",
                hour_of(18.0, 25.0, 19.0).with_rates(4.0, 0.0),
                NotAboveVentilationSetpoint,
                Neither,
            ),
            (
                "  and both of these",
                hour_of(18.0, 28.0, 27.0).with_supply(27.0),
                NotAboveVentilationSetpoint,
                Neither,
            ),
            (
                "  and still above",
                hour_of(18.0, 26.0, 27.0),
                NotAboveVentilationSetpoint,
                Cooling,
            ),
        ],
    )
}

// With a supply at 33 open is 31. With one at 39, target 4 and windows open 0 free is 35 and open 27, which would be cooler.
fn print_supply_first(rt: &impl Print) -> failure::Result<()> {
    print_hours(
        rt,
        "free air not above supply",
        Room::warm(),
        &[
            (
                "  and windows do not cool",
                hour_of(18.0, 29.0, 23.0).with_supply(33.0),
                NotAboveSupply,
                Neither,
            ),
            (
                "  and they do, and still above",
                hour_of(18.0, 30.0, 23.0)
                    .with_supply(39.0)
                    .with_rates(4.0, 0.0),
                NotAboveSupply,
                Cooling,
            ),
            (
                "  and they do, and enough",
                hour_of(18.0, 36.0, 23.0)
                    .with_supply(39.0)
                    .with_rates(4.0, 0.0),
                NotAboveSupply,
                Neither,
            ),
        ],
    )
}

// Target 2 and windows open 1: free 21 and open 23. Where windows do not cool the rate found is the target.
fn print_windows_first(rt: &impl Print) -> failure::Result<()> {
    print_hours(
        rt,
        "windows do not cool",
        Room::warm(),
        &[
            (
                "  and still above, 2 and 1",
                hour_of(18.0, 20.5, 20.0).with_rates(2.0, 1.0),
                WindowsDoNotCool,
                Cooling,
            ),
            (
                "  and still above, 0 and 5e-324",
                hour_of(18.0, 26.0, 23.0).with_rates(0.0, 5e-324),
                WindowsDoNotCool,
                Cooling,
            ),
            (
                "  and enough, 2 and 1",
                hour_of(18.0, 25.0, 20.0).with_rates(2.0, 1.0),
                WindowsDoNotCool,
                Neither,
            ),
        ],
    )
}

pub fn print_order(rt: &impl Print) -> failure::Result<()> {
    print_no_choice_first(rt)?;
    print_setpoint_first(rt)?;
    print_supply_first(rt)?;
    print_windows_first(rt)
}
