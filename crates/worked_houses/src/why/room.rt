// A room with one surface and its hours.
//
// Nothing passes the outer surface (its h_ce is 0). The inner one takes up what the air gives it: k / 3600 (x - x0) = h_ci (y - x),
// x0 and x being the surface before and after the hour, y the air after it. Its k is 3600 h_ci, so x = (x0 + y) / 2, midway, and
// the air gives it area h_ci (y - x0) / 2 = 80 (y - x0) W. The air's capacity over the hour is 80 W/K too, and 80 W/K go with each
// air change an hour. So with a changes, a supply at s and g W of other systems, y0 being the air before the hour,
//
//     y = (x0 + y0 + g / 80 + a s) / (2 + a), and the operative temperature (x + y) / 2 is (x0 + 3 y) / 4.
//
// In the rooms of these rows x0 + y0 + g / 80 is 54, if nothing else is said. With a supply at 15 their air is at 27 after an hour
// without ventilation, at 23 with one air change, at 21 with two and at 19 with four.
use crate::bytes::{Element, Hour, head_of};
use zone::{AirChangesPerHourArgument as Rates, State, ZoneTemperatureControlBasis as Basis};

pub const HEAD: usize = 180;

// Two nodes for the surface, and the air.
pub const NODES: usize = 3;

pub const AIR: usize = 2;

// Of which 80 W/K go with an air change an hour, by the float that is found for it.
const VOLUME: f64 = 237.7760017965298;

// The temperatures of surface and air are those before the hour.
#[derive(Clone, Copy)]
pub struct Room {
    pub basis: Basis,
    pub surface: f64,
    pub air: f64,
    pub area: f64,
    pub k: f64,
    pub useful_area: f64,
    pub volume: f64,
}

impl Room {
    pub fn at(basis: Basis, surface: f64, air: f64) -> Room {
        Room {
            basis,
            surface,
            air,
            area: 64.0,
            k: 9000.0,
            useful_area: 28.8,
            volume: VOLUME,
        }
    }

    // At 27, by its air.
    pub fn warm() -> Room {
        Room::at(Basis::Air, 27.0, 27.0)
    }

    // Length 176, version 1, one element, limit 10.
    pub fn head(self) -> [u8; HEAD] {
        let numbers = [0, 0, 0, 176, 1, self.basis as u8, 1, 0, 10];
        let floats = [self.useful_area, self.volume, 0.0, 0.0, 0.0];
        let element = Element::surface(self.area, 90.0, 0.0, self.k);
        head_of(numbers, floats, &[element])
    }

    // The outer surface has the inner one's temperature.
    pub fn before(self) -> State {
        let mut temps = [0.0; 121];
        temps[0] = self.surface;
        temps[1] = self.surface;
        temps[AIR] = self.air;
        State {
            nodes: NODES,
            temps,
        }
    }
}

// Supply at 15, no ventilation or, with the windows open, four air changes; no gains but those of other systems, no sun.
pub fn hour_of(heat: f64, cool: f64, vent: f64) -> Hour {
    Hour {
        vent,
        supply: 15.0,
        rates: Rates::TargetAndWindowsOpen(0.0, 4.0),
        ..Hour::of(heat, cool)
    }
}

impl Hour {
    // The cooling setpoint lower by so much.
    pub fn cooled_below(self, difference: f64) -> Hour {
        Hour {
            cool: self.cool - difference,
            ..self
        }
    }

    pub fn with_supply(self, supply: f64) -> Hour {
        Hour { supply, ..self }
    }

    pub fn with_rates(self, target: f64, open: f64) -> Hour {
        Hour {
            rates: Rates::TargetAndWindowsOpen(target, open),
            ..self
        }
    }

    pub fn with_fixed_rate(self, rate: f64) -> Hour {
        Hour {
            rates: Rates::Cooling(rate),
            ..self
        }
    }

    pub fn with_gains(self, gains: f64) -> Hour {
        Hour {
            convective: gains,
            ..self
        }
    }
}
