// House P and its hours.
use crate::bytes::{Element, Hour, Part, head_of};
use zone::{AirChangesPerHourArgument as Rates, State, ZoneTemperatureControlBasis as Basis};

pub const HEAD: usize = 180;

// An entry of version 1 or 2.
pub const ENTRY: usize = 216;

// An element's part of an hour: external temperature 20, no sun, shading 1.
const PART: Part = [20.0, 0.0, 0.0, 1.0, 1.0];

// What the rows change of House P.
#[derive(Clone, Copy)]
pub struct House {
    pub basis: Basis,
    pub area: f64,
    pub k_inner: f64,
    pub h_ce: f64,
    pub volume: f64,
    pub bridges: f64,
    pub useful_area: f64,
}

pub const HOUSE_P: House = House {
    basis: Basis::Air,
    area: 1.0,
    k_inner: 3600.0,
    h_ce: 1.0,
    volume: 100.0,
    bridges: 43.0625,
    useful_area: 36.0,
};

// No capacity, no loss, hardly any useful area.
pub const SINGULAR: House = House {
    k_inner: 0.0,
    h_ce: 0.0,
    bridges: 0.0,
    useful_area: 1e-20,
    ..HOUSE_P
};

impl House {
    // Length 176, version 1, one element, limit 10.
    pub fn head(self) -> [u8; HEAD] {
        let numbers = [0, 0, 0, 176, 1, self.basis as u8, 1, 0, 10];
        let floats = [self.useful_area, self.volume, self.bridges, 20.0, 20.0];
        let element = Element {
            first_hour: PART,
            ..Element::surface(self.area, 90.0, self.h_ce, self.k_inner)
        };
        head_of(numbers, floats, &[element])
    }
}

// Every temperature 20.
pub fn start() -> State {
    State {
        nodes: 3,
        temps: [20.0; 121],
    }
}

// With these heating and cooling setpoints, target and windows open both 0; all power by convection, and nothing from other systems, if nothing else is said.
pub fn hour_of(heat: f64, cool: f64) -> Hour {
    Hour {
        external: 20.0,
        supply: 20.0,
        rates: Rates::TargetAndWindowsOpen(0.0, 0.0),
        part: PART,
        ..Hour::of(heat, cool)
    }
}
