// Conversions between units.
pub const SECONDS_PER_HOUR: f64 = 3600.0;

pub const WATTS_PER_KILOWATT: f64 = 1000.0;

pub const LITRES_PER_CUBIC_METRE: f64 = 1000.0;
