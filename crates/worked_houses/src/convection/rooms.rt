// The rooms, each with what its air gives to its surfaces. On the way some sums with 0.7 round, but every temperature after the
// hour comes out as it is said here, and each term is exact: in none is 0.7 multiplied by anything but a power of 2. Each sum is
// the float next to the decimal that is written.
use crate::convection::room::{K_DOWNWARDS, K_HORIZONTAL, K_UPWARDS, Room, Surface};

// What the air gives to all surfaces, and by direction of heat flow, W.
#[derive(Clone, Copy)]
pub struct Given {
    pub total: f64,
    pub horizontal: f64,
    pub upwards: f64,
    pub downwards: f64,
}

// A wall, a ceiling, a floor, pitches of exactly 60 and 120, and a sloped ceiling; area h_ci / 2 is 1.25, 2.5, 0.7, 2.5, 1.25
// and 1.25, together 9.45. All is at 0 before the hour: the air is colder than no surface.
pub fn level() -> Room {
    Room {
        bridges: 34.55,
        air: 0.0,
        surfaces: [
            Surface::new(0.0, 90.0, 1.0, K_HORIZONTAL),
            Surface::new(0.0, 0.0, 1.0, K_UPWARDS),
            Surface::new(0.0, 180.0, 2.0, K_DOWNWARDS),
            Surface::new(0.0, 60.0, 2.0, K_HORIZONTAL),
            Surface::new(0.0, 120.0, 1.0, K_HORIZONTAL),
            Surface::new(0.0, 59.9, 0.5, K_UPWARDS),
        ],
    }
}

// 2304 W bring its air to 16 and its surfaces to 8, and the air gives 20, 40, 2 (0.7 * 8), 40, 20 and 20 W. All of this is
// proportional to the power.
pub fn level_given(part: f64) -> Given {
    Given {
        total: part * 151.2,
        horizontal: part * 80.0,
        upwards: part * 60.0,
        downwards: part * 11.2,
    }
}

// The air is at -16 and each surface at 0: at a floor heat flows upwards, at a ceiling downwards. area h_ci / 2 is 1.25, 0.35, 2.5,
// 2.5, 1.25 and 0.35, together 8.2. 144 * 16 + 100 * 16 W bring the air to 16 and the surfaces to 8: by the temperatures after
// the hour it would be downwards at the floor and upwards at the ceilings.
pub fn turned() -> Room {
    Room {
        bridges: 35.8,
        air: -16.0,
        surfaces: [
            Surface::new(0.0, 90.0, 1.0, K_HORIZONTAL),
            Surface::new(0.0, 0.0, 1.0, K_DOWNWARDS),
            Surface::new(0.0, 180.0, 1.0, K_UPWARDS),
            Surface::new(0.0, 60.0, 2.0, K_HORIZONTAL),
            Surface::new(0.0, 120.0, 1.0, K_HORIZONTAL),
            Surface::new(0.0, 59.9, 1.0, K_DOWNWARDS),
        ],
    }
}

// 20, 0.7 * 8, 40, 40, 20 and 0.7 * 8 W.
pub fn turned_given() -> Given {
    Given {
        total: 131.2,
        horizontal: 80.0,
        upwards: 40.0,
        downwards: 11.2,
    }
}

// A wall, a floor, a ceiling, a pitch of 60, a ceiling, a floor. The air is at 0: colder than the first floor and the first
// ceiling, warmer than the others. area h_ci / 2 is 2.5, 1.25, 0.35, 0.625, 5 and 0.175, together 9.9, and times x0 it is 0,
// 60, 16.8, 30, -80 and -2.8, together 24: so 2304 - 24 W bring the air to 16, and the surfaces to 8, 32, 32, 32, 0 and 0.
pub fn either_sign() -> Room {
    Room {
        bridges: 34.1,
        air: 0.0,
        surfaces: [
            Surface::new(0.0, 90.0, 2.0, K_HORIZONTAL),
            Surface::new(48.0, 180.0, 0.5, K_UPWARDS),
            Surface::new(48.0, 0.0, 1.0, K_DOWNWARDS),
            Surface::new(48.0, 60.0, 0.5, K_HORIZONTAL),
            Surface::new(-16.0, 0.0, 2.0, K_UPWARDS),
            Surface::new(-16.0, 180.0, 0.5, K_DOWNWARDS),
        ],
    }
}

// 40, -40, -11.2, -20, 160 and 5.6 W: the terms of each direction have either sign.
pub fn either_sign_given() -> Given {
    Given {
        total: 134.4,
        horizontal: 20.0,
        upwards: 120.0,
        downwards: -5.6,
    }
}

// 2 to the power -54.
const TINY: f64 = 5.551115123125783e-17;

// Walls and ceilings, some of them tiny, and no floor. area h_ci / 2 is 2.5, tiny, tiny, 2.5, 2.5 and tiny, together 7.5, and
// times x0 it is -40, 0, 0, 120, 0 and 0, together 80: so 2304 - 80 W bring the air to 16, and the surfaces to 0, 8, 8, 32, 8
// and 8.
pub fn in_order() -> Room {
    Room {
        bridges: 36.5,
        air: 0.0,
        surfaces: [
            Surface::new(-16.0, 90.0, 2.0, K_HORIZONTAL),
            Surface::new(0.0, 0.0, TINY, K_UPWARDS),
            Surface::new(0.0, 0.0, TINY, K_UPWARDS),
            Surface::new(48.0, 90.0, 2.0, K_HORIZONTAL),
            Surface::new(0.0, 0.0, 1.0, K_UPWARDS),
            Surface::new(0.0, 90.0, TINY, K_HORIZONTAL),
        ],
    }
}

// 80, 40 TINY, 40 TINY, -80, 40 and 20 TINY W. Horizontal: 80 - 80 + 20 TINY, where the other way round 20 TINY would be lost
// beside -80. Upwards: 40 TINY twice is more than half of the distance from 40 to the next float, and once it is less; behind
// 40 both would be lost. In the total they are lost, beside 80: it is not the sum of the three sums.
pub fn in_order_given() -> Given {
    Given {
        total: 40.0,
        horizontal: 1.1102230246251565e-15,
        upwards: 40.00000000000001,
        downwards: 0.0,
    }
}

// Walls alone; area h_ci / 2 is 1.25 each, together 7.5.
pub fn walls() -> Room {
    Room {
        bridges: 36.5,
        air: 0.0,
        surfaces: [Surface::new(0.0, 90.0, 1.0, K_HORIZONTAL); 6],
    }
}

// -2304 W bring the air to -16 and the surfaces to -8, and the air gives -20 W to each. A sum of no terms is 0.0, not -0.0.
pub fn walls_given() -> Given {
    Given {
        total: -120.0,
        horizontal: -120.0,
        upwards: 0.0,
        downwards: 0.0,
    }
}
