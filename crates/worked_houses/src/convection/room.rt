// A room of six inner surfaces and its hours.
//
// Nothing passes the outer surfaces (their h_ce is 0), and it is 0 outside. So a surface takes up what the air gives it by
// convection: k / 3600 (x - x0) = h_ci (y - x), x0 and x being the surface before and after the hour, y the air after it.
// Each surface has k = 3600 h_ci. So x = (x0 + y) / 2, midway, and the air gives it area h_ci (y - x0) / 2.
//
// The air: 100 (y - y0) + bridges y + the sum of what it gives = the power, where 100 W/K are its capacity over the hour. The
// bridges of each room make 100 + bridges + the sum of area h_ci / 2 = 144 W/K, so 144 y = 100 y0 + the sum of area h_ci x0 / 2
// + the power.
use crate::bytes::{Element, Hour, head_of};
use std::num::f64_to_bits_with_nan;
use zone::State;

pub const SURFACES: usize = 6;

pub const HEAD: usize = 795;

pub const CONDITIONS: usize = 359;

// Two nodes for each surface, and the air.
const NODES: usize = 2 * SURFACES + 1;

pub const AIR: usize = 2 * SURFACES;

// k of a surface with horizontal, upwards and downwards heat flow, J/(m2 K): 3600 times 2.5, 5.0 and 0.7.
pub const K_HORIZONTAL: f64 = 9000.0;

pub const K_UPWARDS: f64 = 18000.0;

pub const K_DOWNWARDS: f64 = 2520.0;

// The temperatures of air and surfaces are those before the hour.
#[derive(Clone, Copy)]
pub struct Surface {
    pub temperature: f64,
    pub pitch: f64,
    pub area: f64,
    pub k: f64,
}

#[derive(Clone, Copy)]
pub struct Room {
    pub bridges: f64,
    pub air: f64,
    pub surfaces: [Surface; SURFACES],
}

impl Surface {
    pub fn new(temperature: f64, pitch: f64, area: f64, k: f64) -> Surface {
        Surface {
            temperature,
            pitch,
            area,
            k,
        }
    }
}

impl Room {
    // Length 791, version 1, air basis, six elements, limit 10.
    pub fn head(&self) -> [u8; HEAD] {
        let numbers = [0, 0, 3, 23, 1, 0, 6, 0, 10];
        let floats = [36.0, 100.0, self.bridges, 0.0, 0.0];
        let element = |s: Surface| Element::surface(s.area, s.pitch, 0.0, s.k);
        head_of(numbers, floats, &self.surfaces.map(element))
    }

    // The outer surface has the inner one's temperature.
    pub fn before(&self) -> State {
        let mut temps = [0.0; 121];
        for (e, surface) in self.surfaces.iter().enumerate() {
            temps[2 * e] = surface.temperature;
            temps[2 * e + 1] = surface.temperature;
        }
        temps[AIR] = self.air;
        State {
            nodes: NODES,
            temps,
        }
    }

    // How many surfaces did not end midway between what they were and this air.
    pub fn not_midway(&self, after: State, air: f64) -> usize {
        let inner = after.temps.iter().skip(1).step_by(2);
        self.surfaces
            .iter()
            .zip(inner)
            .filter(|(surface, came)| {
                let midway = (surface.temperature + air) / 2.0;
                f64_to_bits_with_nan(**came) != f64_to_bits_with_nan(midway)
            })
            .count()
    }
}

// An hour with these setpoints, all power by convection; no gains, no sun, no ventilation.
pub fn conditions_of(heat: f64, cool: f64) -> [u8; CONDITIONS] {
    Hour::of(heat, cool).bytes()
}
