// How an hour is met: in which entry version, and by a plant with which limits, W.
use zone::Limits;

// The greatest that a limit may be; no plant of the rows needs as much.
pub const MOST: f64 = 1e7;

#[derive(Clone, Copy)]
pub struct Meeting {
    pub version: u64,
    pub limits: Limits,
}

impl Meeting {
    pub fn with(version: u64, heating: f64, cooling: f64) -> Meeting {
        Meeting {
            version,
            limits: Limits { heating, cooling },
        }
    }

    // Of version 3.
    pub fn limited(heating: f64, cooling: f64) -> Meeting {
        Meeting::with(3, heating, cooling)
    }

    // Of version 1 or 2, which has no limits: what is handed over is neither tested nor used.
    pub fn unlimited(version: u64) -> Meeting {
        Meeting::with(version, f64::NAN, f64::NAN)
    }
}
