// Heads and hours' conditions in bytes, place by place as Specification, Head and Conditions, give them; each house gives its numbers.
use crate::zone_read::NO_CONTROL;
use big_endian::{put_byte, put_bytes, write_f64s_be};
use zone::{AirChangesPerHourArgument as Rates, Kind};

// Where the first element begins in a head and in an hour's conditions, and how many bytes each has in these.
const FIRST_ELEMENT: usize = 57;

const FIRST_PART: usize = 113;

const PART_BYTES: usize = 41;

// The conditions of an hour of one element.
pub const CONDITIONS: usize = FIRST_PART + PART_BYTES;

// An element's part of an hour: external temperature, direct and diffuse sun, and how much of either is not shaded.
pub type Part = [f64; 5];

// The capacities of an element's nodes, from the outer to the inner surface, and then what leads from each to the next.
#[derive(Clone, Copy)]
pub enum Nodes {
    Two([f64; 3]),
    Five([f64; 9]),
}

// The values are area, pitch, h_ce, h_re, h_ri, absorption and radiation to the sky.
#[derive(Clone, Copy)]
pub struct Element {
    pub values: [f64; 7],
    pub nodes: Nodes,
    pub first_hour: Part,
}

impl Element {
    // Of two nodes, of which the inner one holds heat, and nothing outside but an h_ce.
    pub fn surface(area: f64, pitch: f64, h_ce: f64, k: f64) -> Element {
        Element {
            values: [area, pitch, h_ce, 0.0, 0.0, 0.0, 0.0],
            nodes: Nodes::Two([0.0, k, 1.0]),
            first_hour: [0.0; 5],
        }
    }

    // Returns where the next one begins.
    fn put(&self, b: &mut [u8], place: usize) -> usize {
        let (kind, nodes): (Kind, &[f64]) = match &self.nodes {
            Nodes::Two(nodes) => (Kind::Transparent, nodes),
            Nodes::Five(nodes) => (Kind::Opaque, nodes),
        };
        put_byte(b, place, kind as u8);
        let mut place = place.saturating_add(2);
        for floats in [&self.values[..], nodes, &self.first_hour[..]] {
            write_f64s_be(b, place, floats);
            place = place.saturating_add(floats.len().saturating_mul(8));
        }
        place.saturating_add(1)
    }
}

// By its numbers (length, version, basis, elements, start-up limit), its floats (useful area, volume, bridges, and temperature
// outside and setpoint before the first hour) and its elements.
pub fn head_of<const N: usize>(
    numbers: [u8; 9],
    floats: [f64; 5],
    elements: &[Element],
) -> [u8; N] {
    let mut b = [0; N];
    put_bytes(&mut b, 0, &numbers);
    write_f64s_be(&mut b, 9, &floats);
    write_f64s_be(&mut b, 49, &[NO_CONTROL]);
    let mut place = FIRST_ELEMENT;
    for element in elements {
        place = element.put(&mut b, place);
    }
    b
}

// What an hour of a house brings, and its part of each element.
#[derive(Clone, Copy)]
pub struct Hour {
    pub external: f64,
    pub internal_gains: f64,
    pub solar_gains: f64,
    pub heating_fraction: f64,
    pub cooling_fraction: f64,
    pub heat: f64,
    pub cool: f64,
    pub vent: f64,
    pub supply: f64,
    pub convective: f64,
    pub radiative: f64,
    pub rates: Rates,
    pub part: Part,
}

impl Hour {
    // As calls take it: a fixed rate is target and windows open both that rate.
    pub fn with_rate_twice(self) -> Hour {
        match self.rates {
            Rates::Cooling(rate) => Hour {
                rates: Rates::TargetAndWindowsOpen(rate, rate),
                ..self
            },
            Rates::TargetAndWindowsOpen(_, _) => self,
        }
    }

    // With these heating and cooling setpoints and all power by convection: no gains, no sun, no ventilation, and 0 outside.
    pub fn of(heat: f64, cool: f64) -> Hour {
        Hour {
            external: 0.0,
            internal_gains: 0.0,
            solar_gains: 0.0,
            heating_fraction: 1.0,
            cooling_fraction: 1.0,
            heat,
            cool,
            vent: NO_CONTROL,
            supply: 0.0,
            convective: 0.0,
            radiative: 0.0,
            rates: Rates::TargetAndWindowsOpen(0.0, 0.0),
            part: [0.0; 5],
        }
    }

    // Of one element.
    pub fn conditions(&self) -> [u8; CONDITIONS] {
        self.bytes()
    }

    // An hour long, of as many elements as so many bytes have.
    pub fn bytes<const N: usize>(&self) -> [u8; N] {
        let mut b = [0; N];
        let floats = [
            1.0,
            self.external,
            self.internal_gains,
            self.solar_gains,
            self.heating_fraction,
            self.cooling_fraction,
            self.heat,
            self.cool,
            self.vent,
            self.supply,
            self.convective,
            self.radiative,
        ];
        let (code, rates) = match self.rates {
            Rates::Cooling(rate) => (0, [rate, 0.0]),
            Rates::TargetAndWindowsOpen(target, open) => (1, [target, open]),
        };
        write_f64s_be(&mut b, 0, &floats);
        put_byte(&mut b, 96, code);
        write_f64s_be(&mut b, 97, &rates);
        for place in (FIRST_PART..N).step_by(PART_BYTES) {
            write_f64s_be(&mut b, place, &self.part);
        }
        b
    }
}
