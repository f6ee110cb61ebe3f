// Properties of materials.
ghost use Rattle.std.specs.Prelude.{◌≡◌};
ghost use Rattle.zone.specs.Physics.Ventilation.{density_kg_per_m3, air_properties};

use crate::record::units::LITRES_PER_CUBIC_METRE;

#[derive(Clone, Copy)]
pub struct MaterialProperties {
    // kg / litre
    pub density: f64,
    // J / (kg.K)
    pub specific_heat_capacity: f64,
}

pub fn air_properties() -> MaterialProperties
    ensures { result ≡ air_properties }
{
    MaterialProperties {
        density: 0.001204,
        specific_heat_capacity: 1006.0,
    }
}

pub fn density_kg_per_m3(m: MaterialProperties) -> f64
    ensures { result ≡ density_kg_per_m3 m }
{
    m.density * LITRES_PER_CUBIC_METRE
}
