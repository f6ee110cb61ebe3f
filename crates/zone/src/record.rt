// A zone, its elements, and the constants.
pub mod building_element;
pub mod material_properties;
pub mod refusal;
pub mod units;
pub mod zone_record;
