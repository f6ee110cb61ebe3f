// The room's hours in version 3, met by a plant with limits. The temperatures after an hour are laid beside those that the
// call `update_temperatures` gives for the power that the limits leave, its share worked out by version 1's
// (convective + delivered * fraction) / total; other gains there are none.
// Specification, Hour step; Limits of the plant.
use crate::chilled_ceiling::differing::unlike;
use crate::chilled_ceiling::hours::{Hour, KEPT, distance};
use crate::chilled_ceiling::room::{
    COOLING_FRACTION, HEATING_FRACTION, Room, cold_hour, warm_hour,
};
use crate::failure;
use crate::limits::{MOST, Meeting};
use crate::table::{holds, row, shown};
use crate::zone_read::ZoneRead;
use std::io;
use zone::State;

// The states after an hour with no power, with half of what is asked, and with all of it.
#[derive(Clone, Copy)]
struct Powers {
    none: State,
    half: State,
    all: State,
}

impl Powers {
    // The equations are linear in the power: with half of it the temperature lies midway.
    fn print_midway(self, rt: &impl Print, zone: &ZoneRead) -> failure::Result<()> {
        let none = zone.operative(self.none)?;
        let half = zone.operative(self.half)?;
        let all = zone.operative(self.all)?;
        println!(rt; "operative temperature")?;
        shown(rt, "  with no power", none)?;
        shown(rt, "  with half of it", half)?;
        shown(rt, "  with all of it", all)?;
        let midway = distance(half, (none + all) / 2.0) < KEPT;
        holds(rt, "  half of it ends midway", midway)?;
        Ok(())
    }
}

// An hour of version 3 with these limits, beside the update with this power and the fraction of its sign.
fn print_power(
    rt: &impl Print,
    hour: &Hour,
    title: &str,
    meeting: Meeting,
    power: f64,
) -> failure::Result<State> {
    println!(rt; "{title}")?;
    let after = hour.meet(rt, meeting)?;
    let fraction = if power < 0.0 {
        COOLING_FRACTION
    } else {
        HEATING_FRACTION
    };
    let expected = hour.update(power, fraction)?;
    row(
        rt,
        "  bytes unlike the update's",
        unlike(after, expected),
        0,
    )?;
    Ok(after)
}

// Hours of version 3 with limits that do not hold, beside that of version 2.
fn print_not_held(
    rt: &impl Print,
    hour: &Hour,
    rows: &[(&str, Meeting)],
    two: State,
) -> failure::Result<()> {
    for (title, meeting) in rows {
        println!(rt; "{title}")?;
        let after = hour.meet(rt, *meeting)?;
        row(rt, "  bytes unlike version 2's", unlike(after, two), 0)?;
    }
    Ok(())
}

fn print_two(rt: &impl Print, hour: &Hour) -> failure::Result<State> {
    println!(rt; "version 2, limits not looked at")?;
    hour.meet(rt, Meeting::unlimited(2))
}

// The power that delivers so much in the room's hour.
fn watts(kilowatt_hours: f64) -> f64 {
    kilowatt_hours * 1000.0 / 1.0
}

fn print_other_fraction(
    rt: &impl Print,
    hour: &Hour,
    half: f64,
    halved: State,
) -> failure::Result<()> {
    let by_heating = hour.update(half, HEATING_FRACTION)?;
    holds(
        rt,
        "  by the heating fraction it would differ",
        unlike(halved, by_heating) != 0,
    )?;
    Ok(())
}

// The warm and the cold hour share their steps; in one function the rows that only the warm hour has would each need a test.
fn print_warm(rt: &impl Print, room: &Room) -> failure::Result<()> {
    println!(rt; "the warm hour with a limit: asked")?;
    let hour = Hour::ask(rt, room, warm_hour())?;
    let power = watts(hour.asked.space_cool_demand);
    let half = power / 2.0;
    let two = print_two(rt, &hour)?;
    let title = "version 3, cooling limit half of it";
    let halved = print_power(rt, &hour, title, Meeting::limited(0.0, -half), half)?;
    print_other_fraction(rt, &hour, half, halved)?;
    let title = "cooling limit 0: nothing is delivered";
    let free = print_power(rt, &hour, title, Meeting::limited(MOST, 0.0), 0.0)?;
    print_power(rt, &hour, "both limits 0", Meeting::limited(0.0, 0.0), 0.0)?;
    print_power(
        rt,
        &hour,
        "both limits -0.0",
        Meeting::limited(-0.0, -0.0),
        0.0,
    )?;
    let powers = Powers {
        none: free,
        half: halved,
        all: two,
    };
    powers.print_midway(rt, &room.zone)?;
    let rows = [
        ("cooling limit exactly that", Meeting::limited(0.0, -power)),
        ("both limits 1e7", Meeting::limited(MOST, MOST)),
    ];
    print_not_held(rt, &hour, &rows, two)
}

fn print_cold(rt: &impl Print, room: &Room) -> failure::Result<()> {
    println!(rt; "the cold hour with a limit: asked")?;
    let hour = Hour::ask(rt, room, cold_hour())?;
    let power = watts(hour.asked.space_heat_demand);
    let half = power / 2.0;
    let two = print_two(rt, &hour)?;
    let title = "version 3, heating limit half of it";
    let halved = print_power(rt, &hour, title, Meeting::limited(half, 0.0), half)?;
    let title = "heating limit 0";
    let free = print_power(rt, &hour, title, Meeting::limited(0.0, MOST), 0.0)?;
    let powers = Powers {
        none: free,
        half: halved,
        all: two,
    };
    powers.print_midway(rt, &room.zone)?;
    let rows = [
        ("heating limit exactly that", Meeting::limited(power, 0.0)),
        ("both limits 1e7", Meeting::limited(MOST, MOST)),
    ];
    print_not_held(rt, &hour, &rows, two)
}

// With versions 1 and 2 limits of 0 change nothing.
fn print_earlier(rt: &impl Print, room: &Room) -> io::Result<()> {
    let Room { zone, start } = room;
    let conditions = warm_hour();
    for (title, version) in [("the warm hour in version 1", 1), ("in version 2", 2)] {
        println!(rt; "{title}")?;
        let free = zone.hour_step(*start, &conditions, Meeting::unlimited(version));
        let held = zone.hour_step(*start, &conditions, Meeting::with(version, 0.0, 0.0));
        let changed = unlike(free.state, held.state);
        row(rt, "  bytes that limits of 0 change", changed, 0)?;
    }
    Ok(())
}

pub fn print_limited(rt: &impl Print, room: &Room) -> failure::Result<()> {
    print_warm(rt, room)?;
    print_cold(rt, room)?;
    print_earlier(rt, room)?;
    Ok(())
}
