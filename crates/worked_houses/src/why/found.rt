// The last two reasons, which go by the temperature at the rate found. More of them: close.rt, coarse.rt.
use crate::failure;
use crate::why::answers::print_hours;
use crate::why::room::{Room, hour_of};
use zone::Load::{Cooling, Neither};
use zone::Reason::{StillAboveCoolingSetpoint, WindowsEnough};
use zone::ZoneTemperatureControlBasis::Air;

// With 1600 W of other systems: the same temperatures.
fn heated() -> Room {
    Room::at(Air, 17.0, 17.0)
}

// By the rate that triggers heating, at 21, the windows would be enough in the second row.
fn print_still_above(rt: &impl Print) -> failure::Result<()> {
    print_hours(
        rt,
        "free 27, found 23",
        Room::warm(),
        &[
            (
                "  setpoints 18/22",
                hour_of(18.0, 22.0, 23.0),
                StillAboveCoolingSetpoint,
                Cooling,
            ),
            (
                "  21/22",
                hour_of(21.0, 22.0, 23.0),
                StillAboveCoolingSetpoint,
                Cooling,
            ),
        ],
    )?;
    print_hours(
        rt,
        "ventilation setpoint 18.5, found 19 with the windows open",
        Room::warm(),
        &[(
            "  18/18.75",
            hour_of(18.0, 18.75, 18.5),
            StillAboveCoolingSetpoint,
            Cooling,
        )],
    )
}

// Free is above each of these cooling setpoints but the last: the load is that of the demand.
fn print_windows_enough(rt: &impl Print) -> failure::Result<()> {
    print_hours(
        rt,
        "free 27, found 23",
        Room::warm(),
        &[
            (
                "  setpoints 18/25",
                hour_of(18.0, 25.0, 23.0),
                WindowsEnough,
                Neither,
            ),
            ("  18/23", hour_of(18.0, 23.0, 23.0), WindowsEnough, Neither),
            ("  23/25", hour_of(23.0, 25.0, 23.0), WindowsEnough, Neither),
            ("  18/28", hour_of(18.0, 28.0, 23.0), WindowsEnough, Neither),
        ],
    )?;
    print_hours(
        rt,
        "ventilation setpoint 18.5, found 19 with the windows open",
        Room::warm(),
        &[("  18/25", hour_of(18.0, 25.0, 18.5), WindowsEnough, Neither)],
    )
}

// The gains are those of the demand: without them free would be 17, below the ventilation setpoint.
fn print_gains(rt: &impl Print) -> failure::Result<()> {
    print_hours(
        rt,
        "the room at 17, with 1600 W of other systems: free 27, found 23",
        heated(),
        &[
            (
                "  setpoints 18/25",
                hour_of(18.0, 25.0, 23.0).with_gains(1600.0),
                WindowsEnough,
                Neither,
            ),
            (
                "  18/22",
                hour_of(18.0, 22.0, 23.0).with_gains(1600.0),
                StillAboveCoolingSetpoint,
                Cooling,
            ),
        ],
    )
}

pub fn print_found(rt: &impl Print) -> failure::Result<()> {
    print_still_above(rt)?;
    print_windows_enough(rt)?;
    print_gains(rt)
}
