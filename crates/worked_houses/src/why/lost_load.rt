// Heating beside reasons that a cold zone cannot have: by rounding alone.
//
// House P with next to no useful area, a small window and little air, by its operative temperature, at 26; other systems give and inner
// gains take 10 MW. It is free at 21, above its cooling setpoint of 20, so cooling is tried: 10 W for each square metre, some 1e-9 W,
// are lost among the gains, and what rounding leaves of the two temperatures' difference decides the sign of the demand. With twice the
// useful area the same hours are cooled.
use crate::bytes::Hour;
use crate::failure;
use crate::house_p::house::{HOUSE_P, House, hour_of};
use crate::why::answers::{Because, why};
use crate::why::room::NODES;
use crate::zone_read::ZoneRead;
use zone::Load::{self, Cooling, Heating};
use zone::Reason::{NotAboveSupply, StillAboveCoolingSetpoint, WindowsDoNotCool};
use zone::{AirChangesPerHourArgument as Rates, State, ZoneTemperatureControlBasis as Basis};

const USEFUL_AREA: f64 = 5e-11;

// By operative temperature, with 1 m3 of air and a window of 0.01 m2.
fn house(useful_area: f64) -> House {
    House {
        basis: Basis::Operative,
        area: 0.01,
        volume: 1.0,
        bridges: 0.1,
        useful_area,
        ..HOUSE_P
    }
}

// Ventilation setpoint 20.8.
fn hour(supply: f64, target: f64, open: f64) -> Hour {
    Hour {
        internal_gains: -1e7,
        vent: 20.8,
        supply,
        convective: 4e6,
        radiative: 6e6,
        rates: Rates::TargetAndWindowsOpen(target, open),
        ..hour_of(5.0, 20.0)
    }
}

fn print_loads(rt: &impl Print, title: &str, useful_area: f64, load: Load) -> failure::Result<()> {
    let head = house(useful_area).head();
    let zone = ZoneRead::read(&head)?;
    let before = State {
        nodes: NODES,
        temps: [26.0; 121],
    };
    println!(rt; "{title}")?;
    for (asked, hour, reason) in [
        (
            "  supply 40, rates 0 and 1",
            hour(40.0, 0.0, 1.0),
            NotAboveSupply,
        ),
        (
            "  supply 10, rates 0.001 and 0",
            hour(10.0, 0.001, 0.0),
            WindowsDoNotCool,
        ),
        (
            "  supply 10, rates 0 and 1",
            hour(10.0, 0.0, 1.0),
            StillAboveCoolingSetpoint,
        ),
    ] {
        let expected = Ok(Because(reason, load));
        why(rt, asked, &zone, before, &hour.conditions(), expected)?;
    }
    Ok(())
}

pub fn print_lost(rt: &impl Print) -> failure::Result<()> {
    let title = "a load that is lost among gains of 10 MW, by rounding";
    print_loads(rt, title, USEFUL_AREA, Heating)?;
    let title = "the same with twice the useful area";
    print_loads(rt, title, 2.0 * USEFUL_AREA, Cooling)
}
