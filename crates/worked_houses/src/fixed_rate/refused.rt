// Every call but those that judge or explain what is written refuses it under 8, in its place: House P's hours with code 0, in each version, with other bytes
// in place of the zeros behind the rate, and beside every other refusal.
use crate::bytes::{CONDITIONS, Hour};
use crate::convection::room::{CONDITIONS as SIX_SURFACES, Room};
use crate::convection::rooms;
use crate::failure;
use crate::fixed_rate::calls::Offered;
use crate::fixed_rate::order;
use crate::house_p::house::{HOUSE_P, hour_of, start};
use crate::limits::{MOST, Meeting};
use crate::refusal::Refusal;
use crate::why::answers::Because;
use crate::zone_read::ZoneRead;
use big_endian::put_byte;
use std::io;
use zone::{Load, Reason};

// Places in an hour's conditions: the rate code and the second rate.
const RATE_CODE: usize = 96;

const SECOND_RATE: usize = 105;

pub const REFUSED: Result<(), Refusal> = Err(Refusal {
    number: 8,
    index: 0,
});

// House P is heated to 21.
pub const HEATED: Result<Because, Refusal> = Ok(Because(Reason::NoChoice, Load::Heating));

const NO_REASON: Result<Because, Refusal> = Err(Refusal {
    number: 8,
    index: 0,
});

fn print_versions(
    rt: &impl Print,
    zone: &ZoneRead,
    title: &str,
    hour: Hour,
    expected: Result<(), Refusal>,
) -> io::Result<()> {
    let conditions = hour.conditions();
    for (version, meeting) in [
        (1, Meeting::unlimited(1)),
        (2, Meeting::unlimited(2)),
        (3, Meeting::limited(MOST, MOST)),
    ] {
        print!(rt; "House P to 21, version {version}, ")?;
        let offered = Offered {
            zone: &*zone,
            before: start(),
            conditions: &conditions,
            meeting,
        };
        offered.print(rt, title, expected, HEATED)?;
    }
    Ok(())
}

// With bytes that no hour has behind the fixed rate, or another code.
fn print_bytes(rt: &impl Print, zone: &ZoneRead, fixed: Hour) -> io::Result<()> {
    for (title, place, byte) in [
        ("a fixed rate of 0.5, and -0.0 behind it", SECOND_RATE, 128),
        ("and a float near 0 behind it", SECOND_RATE + 7, 1),
        ("rate code 2", RATE_CODE, 2),
        ("rate code 255", RATE_CODE, 255),
    ] {
        let mut conditions: [u8; CONDITIONS] = fixed.conditions();
        put_byte(&mut conditions, place, byte);
        let offered = Offered {
            zone: &*zone,
            before: start(),
            conditions: &conditions,
            meeting: Meeting::unlimited(2),
        };
        offered.print(rt, title, REFUSED, NO_REASON)?;
    }
    Ok(())
}

// A room whose update and hour step tell what its air gives to its surfaces (Specification, Heat balance): nothing, where the rate is fixed.
fn print_surfaces(rt: &impl Print) -> failure::Result<()> {
    let room: Room = rooms::level();
    let head = room.head();
    let zone = ZoneRead::read(&head)?;
    let hour = Hour::of(16.0, 100.0);
    let fixed: [u8; SIX_SURFACES] = hour.with_fixed_rate(0.0).bytes();
    let twice: [u8; SIX_SURFACES] = hour.bytes();
    for (title, conditions, expected) in [
        ("the room of six surfaces, a fixed rate", &fixed, REFUSED),
        ("target and windows open 0", &twice, Ok(())),
    ] {
        let offered = Offered {
            zone: &zone,
            before: room.before(),
            conditions,
            meeting: Meeting::limited(1152.0, 0.0),
        };
        offered.print(rt, title, expected, HEATED)?;
    }
    Ok(())
}

pub fn print_refused(rt: &impl Print) -> failure::Result<()> {
    let head = HOUSE_P.head();
    let zone = ZoneRead::read(&head)?;
    let hour = hour_of(21.0, 24.0);
    for (title, rate) in [
        ("a fixed rate of 0", 0.0),
        ("a fixed rate of -0.0", -0.0),
        ("a fixed rate of 0.5", 0.5),
    ] {
        print_versions(rt, &zone, title, hour.with_fixed_rate(rate), REFUSED)?;
    }
    let title = "target and windows open 0";
    print_versions(rt, &zone, title, hour.with_rates(0.0, 0.0), Ok(()))?;
    print_bytes(rt, &zone, hour.with_fixed_rate(0.5))?;
    order::print_order(rt, &zone)?;
    print_surfaces(rt)
}
