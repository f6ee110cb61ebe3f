// The hours of the house: what each brings, and the plant that it has.
ghost use Rattle.std.specs.Prelude.{◌<◌};

use crate::layout::CONDITIONS;
use big_endian::{put_byte, write_f64s_be};
use std::num::nearest_usize_to_f64;
use zone::Limits;

// The hour of a year with which a book begins: a whole number of days.
const FIRST_HOUR: usize = 3120;

// The rate of hours that have one: with more, windows are open.
pub const ONE_RATE: f64 = 0.75;

// Up from 0 to 1 and down again, once in a period of twice `half`.
fn wave(n: usize, half: usize) -> f64
    requires { 0 < half }
{
    let up = nearest_usize_to_f64(n % half) / nearest_usize_to_f64(half);
    if n / half % 2 == 0 { up } else { 1.0 - up }
}

// 0 in winter, 1 in summer. The first hour lies in early summer, where a day has heated and cooled hours.
fn season(hour: usize) -> f64 {
    wave(hour.saturating_add(FIRST_HOUR), 4380)
}

// By year and day, -6 to 26.
fn external(hour: usize) -> f64 {
    20.0 * season(hour) + 12.0 * wave(hour, 12) - 6.0
}

// The sun of the middle of a day.
fn sun(hour: usize) -> f64 {
    let high = wave(hour, 12) * (0.3 + 0.7 * season(hour)) - 0.25;
    if 0.0 < high { 800.0 * high } else { 0.0 }
}

// The second of every three days has windows that no setpoint opens.
fn is_closed(hour: usize) -> bool {
    hour / 24 % 3 == 1
}

// Low in the night; on a day with closed windows high in the morning, so that summer has heated hours too.
fn set_back(hour: usize) -> f64 {
    match hour % 24 {
        0..=6 => 16.0,
        7..=9 if is_closed(hour) => 23.5,
        _ => 20.5,
    }
}

// None, or 22, day by day.
fn ventilation(hour: usize) -> f64 {
    if is_closed(hour) { 1.4e32 } else { 22.0 }
}

// Every fifth hour has one rate: target and windows open are equal.
pub fn has_one_rate(hour: usize) -> bool {
    hour % 5 == 0
}

fn put_rates(b: &mut [u8; CONDITIONS], hour: usize) {
    let rates = if has_one_rate(hour) {
        [ONE_RATE, ONE_RATE]
    } else {
        [0.5, 4.0]
    };
    put_byte(b, 96, 1);
    write_f64s_be(b, 97, &rates);
}

// The treatments that are open in six hours after another: none, the first, the second, both.
fn put_parts(b: &mut [u8; CONDITIONS], outside: f64, light: f64, hour: usize) {
    write_f64s_be(b, 113, &[outside, light, 0.5 * light, 1.0, 0.5]);
    write_f64s_be(b, 154, &[outside, 0.5 * light, 0.25 * light, 0.0, 1.0]);
    put_byte(b, 194, (hour / 6 % 4) as u8);
}

// Place by place as Specification, Conditions and Entry, give the bytes, since the engine that is tested does not write them.
pub fn conditions(hour: usize) -> [u8; CONDITIONS] {
    let mut b = [0; CONDITIONS];
    let outside = external(hour);
    let light = sun(hour);
    let gains = 150.0 + 350.0 * wave(hour, 9);
    let heat = set_back(hour);
    let vent = ventilation(hour);
    let values = [
        1.0, outside, gains, light, 0.7, 0.9, heat, 24.0, vent, outside, 0.0, 30.0,
    ];
    write_f64s_be(&mut b, 0, &values);
    put_rates(&mut b, hour);
    put_parts(&mut b, outside, light, hour);
    b
}

// A small plant, and those of seven hours one after the other: mostly the small one, in some none, of either zero, or more than any
// hour asks for.
const SMALL: (f64, f64) = (200.0, 350.0);

const PLANTS: [(f64, f64); 7] = [
    SMALL,
    SMALL,
    (0.0, -0.0),
    SMALL,
    (1.0e7, 1.0e7),
    SMALL,
    (-0.0, 0.0),
];

pub fn limits_at(hour: usize) -> Limits {
    let (heating, cooling) = PLANTS[hour % PLANTS.len()];
    Limits { heating, cooling }
}
