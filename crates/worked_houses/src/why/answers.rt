// A row for an hour of a room: its reason and its load, and those expected.
use crate::bytes::Hour;
use crate::failure;
use crate::refusal::{Answer, Refusal};
use crate::table::row;
use crate::why::room::Room;
use crate::zone_read::ZoneRead;
use std::fmt::{self, Display};
use std::io;
use zone::{Load, Reason, State};

// Why an hour has its rate and its load.
#[derive(Clone, Copy, PartialEq, Eq)]
pub struct Because(pub Reason, pub Load);

// As Specification, Why this rate, why this load, counts them, and not as the engine orders them: the rows lay the two beside each other.
fn number_of(reason: Reason) -> u8 {
    match reason {
        Reason::NoChoice => 1,
        Reason::NotAboveVentilationSetpoint => 2,
        Reason::NotAboveSupply => 3,
        Reason::WindowsDoNotCool => 4,
        Reason::StillAboveCoolingSetpoint => 5,
        Reason::WindowsEnough => 6,
    }
}

fn name_of(load: Load) -> &'static str {
    match load {
        Load::Neither => "neither",
        Load::Heating => "heating",
        Load::Cooling => "cooling",
    }
}

// Reason and load fill all but two columns of eighteen.
impl Display for Because {
    fn fmt<W: fmt::Write>(&self, f: &mut fmt::Formatter<W>) -> fmt::Result {
        let Because(reason, load) = *self;
        write!(f, "  reason {} {}", number_of(reason), name_of(load))
    }
}

pub fn why(
    rt: &impl Print,
    asked: &str,
    zone: &ZoneRead,
    before: State,
    conditions: &[u8],
    expected: Result<Because, Refusal>,
) -> io::Result<()> {
    let came = zone
        .why(before, conditions)
        .map(|(reason, load)| Because(reason, load));
    row(rt, asked, Answer(came), Answer(expected))
}

pub fn print_why(
    rt: &impl Print,
    asked: &str,
    room: Room,
    hour: Hour,
    reason: Reason,
    load: Load,
) -> failure::Result<()> {
    let head = room.head();
    let zone = ZoneRead::read(&head)?;
    let expected = Ok(Because(reason, load));
    why(
        rt,
        asked,
        &zone,
        room.before(),
        &hour.conditions(),
        expected,
    )?;
    Ok(())
}

// Hours of a room, each with its reason and its load.
pub fn print_hours(
    rt: &impl Print,
    title: &str,
    room: Room,
    rows: &[(&str, Hour, Reason, Load)],
) -> failure::Result<()> {
    println!(rt; "{title}")?;
    for (asked, hour, reason, load) in rows {
        print_why(rt, asked, room, *hour, *reason, *load)?;
    }
    Ok(())
}
