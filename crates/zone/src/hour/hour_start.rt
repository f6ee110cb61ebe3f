// An hour from its beginning: what each of its calculations is given.
use crate::format::conditions::Conditions;
use crate::record::building_element::Coefficients;
use crate::record::zone_record::Zone;

// Where an hour begins: the coefficients in force, its zone, the temperatures before it by slots, and its conditions.
#[derive(Clone, Copy)]
pub struct HourStart<'a> {
    pub coefficients: Coefficients,
    pub zone: &'a Zone,
    pub temp_prev: &'a [f64; 121],
    pub hour: &'a Conditions,
}
