// What the setpoints are held against: a control temperature, by the zone's basis.
ghost use Rattle.std.specs.Prelude.{◌≡◌};
ghost use Rattle.zone.specs.Inner.Demand.{zone_temperatures};
ghost use Rattle.zone.specs.Inner.Operative.{control_by};
ghost use Rattle.zone.specs.Inner.PreparedHour.{control_in};

use crate::hour::windows::ZoneTemperatures;
use crate::physics::operative::temp_operative_by_temp_vector;
use crate::record::zone_record::{Zone, ZoneTemperatureControlBasis};

// The basis, and for the operative temperature the elements' areas, with their count, for there is no heap, and their total.
#[derive(Clone, Copy)]
pub struct Control {
    pub basis: ZoneTemperatureControlBasis,
    pub count: usize,
    pub area: [f64; 24],
    pub area_el_total: f64,
}

impl Control {
    // Of a zone, with the areas of its elements and their total.
    pub fn of(z: &Zone, area: [f64; 24], area_el_total: f64) -> Control
        ensures { control_in result ≡ control_by z.now.temp_setpnt_basis z.now.count area area_el_total }
    {
        Control {
            basis: z.temp_setpnt_basis,
            count: z.count,
            area,
            area_el_total,
        }
    }

    pub fn temperature(&self, t: &[f64; 121]) -> f64
        ensures { result ≡ control_in self.now t.now }
    {
        match self.basis {
            ZoneTemperatureControlBasis::Air => t[120],
            ZoneTemperatureControlBasis::Operative => {
                temp_operative_by_temp_vector(self.count, &self.area, self.area_el_total, t)
            }
        }
    }

    // Of a calculation's temperatures, what the choice of a rate looks at.
    pub fn zone_temperatures(&self, t: &[f64; 121]) -> ZoneTemperatures
        ensures { result ≡ zone_temperatures (control_in self.now) t.now }
    {
        ZoneTemperatures {
            temp_control: self.temperature(t),
            temp_int_air: t[120],
        }
    }
}
