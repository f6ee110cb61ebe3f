// Books of these houses with hours of code 0 among hours of code 1, each with what is expected of it. All but one are of versions 2 and 3
// alone, so that they can be converted.
use crate::bytes::{CONDITIONS, Hour};
use crate::chilled_ceiling::limit_entries::{COOLING, HEATING};
use crate::chilled_ceiling::room::{self as ceiling_room, CONDITIONS as CEILING, cold, warm};
use crate::convection::room::CONDITIONS as SIX_SURFACES;
use crate::convection::rooms;
use crate::fixed_rate::stored::Books;
use crate::house_p::house::{ENTRY, HEAD, HOUSE_P, hour_of as house_p_hour};
use crate::limits::{MOST, Meeting};
use crate::refusal::Refusal;
use crate::replies::Counts;
use crate::why::room::{Room, hour_of};
use crate::zone_read::{NO_CONTROL, ZoneRead};
use zone::Load::{self, Cooling, Heating, Neither};

// Entries of version 3 in a house of one element.
const LONG_ENTRY: usize = ENTRY + 16;

// In how many bytes the two forms differ: the code byte of each hour with a fixed rate, and those bytes of its rate that are not 0. And the load of the first
// hour, which has a fixed rate.
#[derive(Clone, Copy)]
pub struct Sample {
    pub books: Books,
    pub counts: Counts,
    pub changed: usize,
    pub load: Load,
}

fn sample_of(
    head: &[u8],
    length: usize,
    hours: &[(Hour, Meeting)],
    counts: Counts,
    changed: usize,
    load: Load,
) -> Result<Sample, Refusal> {
    let zone = ZoneRead::read(head)?;
    Ok(Sample {
        books: Books::of(&zone, length, hours),
        counts,
        changed,
        load,
    })
}

// Of version 3 with limits that no hour reaches.
fn roomy() -> Meeting {
    Meeting::limited(MOST, MOST)
}

// All five with a fixed rate of 0.
pub fn house_p() -> Result<Sample, Refusal> {
    let heated = house_p_hour(21.0, 24.0).with_fixed_rate(0.0);
    let cooled = house_p_hour(15.0, 19.0).with_fixed_rate(0.0);
    sample_of(
        &HOUSE_P.head(),
        CONDITIONS,
        &[
            (heated, Meeting::unlimited(2)),
            (cooled, Meeting::unlimited(2)),
            (heated, Meeting::limited(72.0, 0.0)),
            (cooled, Meeting::limited(0.0, 72.0)),
            (house_p_hour(20.0, 24.0).with_fixed_rate(0.0), roomy()),
        ],
        Counts {
            entries: 5,
            used: HEAD + 2 * ENTRY + 3 * LONG_ENTRY,
            last_version: 3,
        },
        5,
        Heating,
    )
}

// 0.5 is 3f e0 and six zeros. Hours 1 and 4 have target and windows open 0.5 from the first.
pub fn ceiling() -> Result<Sample, Refusal> {
    let warm_fixed = warm().with_fixed_rate(0.5);
    let cold_fixed = cold().with_fixed_rate(0.5);
    sample_of(
        &ceiling_room::head(),
        CEILING,
        &[
            (warm_fixed, Meeting::unlimited(2)),
            (cold(), Meeting::unlimited(2)),
            (warm_fixed, Meeting::limited(HEATING, COOLING)),
            (cold_fixed, roomy()),
            (warm(), roomy()),
        ],
        Counts {
            entries: 5,
            used: ceiling_room::HEAD + 2 * ceiling_room::ENTRY + 3 * ceiling_room::LIMITED_ENTRY,
            last_version: 3,
        },
        9,
        Cooling,
    )
}

// The same ceiling by the heating fraction: a first hour of version 1.
pub fn ceiling_from_1() -> Result<Sample, Refusal> {
    let warm_fixed = warm().with_fixed_rate(0.5);
    sample_of(
        &ceiling_room::head(),
        CEILING,
        &[
            (warm_fixed, Meeting::unlimited(1)),
            (warm_fixed, Meeting::unlimited(2)),
            (warm_fixed, Meeting::limited(HEATING, COOLING)),
        ],
        Counts {
            entries: 3,
            used: ceiling_room::HEAD + 2 * ceiling_room::ENTRY + ceiling_room::LIMITED_ENTRY,
            last_version: 3,
        },
        9,
        Cooling,
    )
}

// why/room.rt has the equations: each hour has what other systems give it so that x0 + y0 + g / 80 is 54. Its air ends at 23, 23, 27, 21 and
// 27, its surface at 11.5, 17.25, 22.125, 21.5625 and 24.28125. The second hour finds the rate 1, and 2 is the rate that triggers heating.
// 1.0 is 3f f0 and six zeros, -0.0 is 80 and seven.
pub fn windows() -> Result<Sample, Refusal> {
    let wide = hour_of(18.0, 28.0, NO_CONTROL);
    sample_of(
        &Room::warm().head(),
        CONDITIONS,
        &[
            (
                wide.with_fixed_rate(1.0).with_gains(4320.0),
                Meeting::unlimited(2),
            ),
            (
                hour_of(21.0, 25.0, 23.0).with_gains(1560.0),
                Meeting::unlimited(2),
            ),
            (wide.with_fixed_rate(-0.0).with_gains(1100.0), roomy()),
            (wide.with_rates(2.0, 2.0).with_gains(390.0), roomy()),
            (wide.with_rates(0.0, -0.0).with_gains(915.0), roomy()),
        ],
        Counts {
            entries: 5,
            used: HEAD + 2 * ENTRY + 3 * LONG_ENTRY,
            last_version: 3,
        },
        5,
        Neither,
    )
}

const SIX_SURFACES_HEAD: usize = 795;

const SIX_SURFACES_ENTRY: usize = 501;

pub fn six_surfaces() -> Result<Sample, Refusal> {
    sample_of(
        &rooms::level().head(),
        SIX_SURFACES,
        &[
            (
                Hour::of(16.0, 100.0).with_fixed_rate(0.0),
                Meeting::unlimited(2),
            ),
            (
                Hour::of(-100.0, -16.0).with_fixed_rate(0.0),
                Meeting::limited(0.0, 576.0),
            ),
        ],
        Counts {
            entries: 2,
            used: SIX_SURFACES_HEAD + 2 * SIX_SURFACES_ENTRY + 16,
            last_version: 3,
        },
        2,
        Heating,
    )
}
