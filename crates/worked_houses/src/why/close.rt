// Two closenesses: whether the windows are enough goes by the windows test's, 1e-8 or 1e-10 of the larger magnitude, and the load by the
// demand's, 1e-10 or 1e-9 of it.
use crate::failure;
use crate::why::answers::print_why;
use crate::why::room::{Room, hour_of};
use zone::Load::{Cooling, Neither};
use zone::Reason::{StillAboveCoolingSetpoint, WindowsEnough};
use zone::ZoneTemperatureControlBasis::Air;

// Close by the windows test up to 1e-8, by the demand up to 2.3e-8.
fn print_at_23(rt: &impl Print) -> failure::Result<()> {
    let hour = hour_of(18.0, 23.0, 23.0);
    println!(rt; "found 23, the cooling setpoint below it by")?;
    for (asked, below, reason, load) in [
        ("  5e-9", 5e-9, WindowsEnough, Neither),
        ("  9e-9", 9e-9, WindowsEnough, Neither),
        ("  1.1e-8", 1.1e-8, StillAboveCoolingSetpoint, Cooling),
        ("  2.4e-8", 2.4e-8, StillAboveCoolingSetpoint, Cooling),
    ] {
        print_why(
            rt,
            asked,
            Room::warm(),
            hour.cooled_below(below),
            reason,
            load,
        )?;
    }
    Ok(())
}

// The room at 7 and a supply at -5, 20 degrees less. Close by the windows test up to 1e-8, by the demand up to 3e-9.
fn print_at_3(rt: &impl Print) -> failure::Result<()> {
    let room = Room::at(Air, 7.0, 7.0);
    let hour = hour_of(-10.0, 3.0, 3.0).with_supply(-5.0);
    println!(rt; "found 3, the cooling setpoint below it by")?;
    for (asked, below, reason, load) in [
        ("  2e-9", 2e-9, WindowsEnough, Neither),
        ("  5e-9", 5e-9, WindowsEnough, Cooling),
        ("  9e-9", 9e-9, WindowsEnough, Cooling),
        ("  1.1e-8", 1.1e-8, StillAboveCoolingSetpoint, Cooling),
    ] {
        print_why(rt, asked, room, hour.cooled_below(below), reason, load)?;
    }
    Ok(())
}

// The room at 2700 and a supply at 0: free is 2700, with one air change 1800, with the windows open 900. Close by the windows test up
// to 1.8e-7, by the demand up to 1.8e-6.
fn print_at_1800(rt: &impl Print) -> failure::Result<()> {
    let room = Room::at(Air, 2700.0, 2700.0);
    let hour = hour_of(18.0, 1800.0, 1800.0).with_supply(0.0);
    println!(rt; "found 1800, the cooling setpoint below it by")?;
    for (asked, below, reason, load) in [
        ("  1.6e-7", 1.6e-7, WindowsEnough, Neither),
        ("  2e-7", 2e-7, StillAboveCoolingSetpoint, Cooling),
    ] {
        print_why(rt, asked, room, hour.cooled_below(below), reason, load)?;
    }
    Ok(())
}

// By the demand free is close to the cooling setpoint up to 2.7e-8, so nothing is cooled, although found is not close by the windows test.
fn print_free_close(rt: &impl Print) -> failure::Result<()> {
    let hour = hour_of(18.0, 27.0, 27.0 - 5e-9);
    println!(rt; "free 27, found 5e-9 below it, the cooling setpoint below free by")?;
    for (asked, below, reason, load) in [
        ("  1.4e-8", 1.4e-8, WindowsEnough, Neither),
        ("  1.6e-8", 1.6e-8, StillAboveCoolingSetpoint, Neither),
        ("  2.5e-8", 2.5e-8, StillAboveCoolingSetpoint, Neither),
        ("  3e-8", 3e-8, StillAboveCoolingSetpoint, Cooling),
    ] {
        print_why(
            rt,
            asked,
            Room::warm(),
            hour.cooled_below(below),
            reason,
            load,
        )?;
    }
    Ok(())
}

pub fn print_close(rt: &impl Print) -> failure::Result<()> {
    print_at_23(rt)?;
    print_at_3(rt)?;
    print_at_1800(rt)?;
    print_free_close(rt)
}
