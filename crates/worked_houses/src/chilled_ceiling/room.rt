// The room and its hours. 20 m2 with a wall and a window, operative temperature under control.
use crate::bytes::{Element, Hour, Nodes, Part, head_of};
use crate::zone_read::ZoneRead;
use zone::{AirChangesPerHourArgument as Rates, State};

// Bytes of its head, of an hour's conditions and of an entry.
pub const HEAD: usize = 351;

pub const CONDITIONS: usize = 195;

pub const ENTRY: usize = 297;

// The limits in an entry of version 3, and such an entry.
pub const LIMITS: usize = 16;

pub const LIMITED_ENTRY: usize = ENTRY + LIMITS;

// Five of the wall, two of the window, and the air.
pub const NODES: usize = 8;

// The room, and its state after start-up.
#[derive(Drop)]
pub struct Room<'a> {
    pub zone: ZoneRead<'a>,
    pub start: State,
}

// What the ceiling gives to the air, the rest going to the surfaces by radiation.
pub const HEATING_FRACTION: f64 = 0.3;

pub const COOLING_FRACTION: f64 = 0.7;

pub const HEATING_SETPOINT: f64 = 21.0;

pub const COOLING_SETPOINT: f64 = 24.0;

// An element's part of an hour: external temperature, sun, shading.
fn part(outside: f64, sun: f64) -> Part {
    [outside, sun, 0.5 * sun, 1.0, 1.0]
}

// Length 347, version 1, operative basis, two elements, limit 1,000.
pub fn head() -> [u8; HEAD] {
    let numbers = [0, 0, 1, 91, 1, 1, 2, 3, 232];
    let wall = Element {
        values: [12.0, 90.0, 20.0, 4.14, 5.13, 0.6, 15.0],
        nodes: Nodes::Five([0.0, 0.0, 0.0, 0.0, 90000.0, 6.0, 3.0, 3.0, 6.0]),
        first_hour: part(20.0, 0.0),
    };
    let window = Element {
        values: [4.0, 90.0, 20.0, 4.14, 5.13, 0.0, 20.0],
        nodes: Nodes::Two([0.0, 0.0, 1.5]),
        first_hour: part(20.0, 0.0),
    };
    head_of(numbers, [20.0, 50.0, 2.0, 20.0, 22.0], &[wall, window])
}

// An hour with this temperature outside, sun on the elements and gains inside; the target of the rates is that of open windows.
fn hour_of(outside: f64, sun: f64, gains: f64) -> Hour {
    Hour {
        external: outside,
        internal_gains: gains,
        solar_gains: sun,
        heating_fraction: HEATING_FRACTION,
        cooling_fraction: COOLING_FRACTION,
        supply: outside,
        rates: Rates::TargetAndWindowsOpen(0.5, 0.5),
        part: part(outside, sun),
        ..Hour::of(HEATING_SETPOINT, COOLING_SETPOINT)
    }
}

pub fn warm() -> Hour {
    hour_of(32.0, 400.0, 300.0)
}

pub fn cold() -> Hour {
    hour_of(0.0, 0.0, 50.0)
}

pub fn warm_hour() -> [u8; CONDITIONS] {
    warm().bytes()
}

pub fn cold_hour() -> [u8; CONDITIONS] {
    cold().bytes()
}
