// A building element: its record, and what is worked out from it alone.
// Specification, Forms that are kept; Kinds and nodes.
ghost use Rattle.std.specs.Prelude.{◌≡◌};
ghost use Rattle.zone.specs.Record.BuildingElement.{
  heat_flow_direction,
  h_ci_of,
  surface_convection,
  standard_coefficients,
  h_pli_transparent,
  is_two_nodes,
  number_of_nodes,
};

// The original's BuildingElement, in the order of its variants.
#[derive(Clone, Copy)]
pub enum Kind {
    Opaque,
    AdjacentConditionedSpace,
    AdjacentUnconditionedSpaceSimple,
    Ground,
    Transparent,
    PartyWall,
}

// What an hour says of one element: external temperature, direct and diffuse irradiance and their shading factors,
// and a byte whose bit j means that window treatment j is open.
#[derive(Clone, Copy)]
pub struct ElementHour {
    pub temp_ext: f64,
    pub i_sol_dir: f64,
    pub i_sol_dif: f64,
    pub f_sh_dir: f64,
    pub f_sh_dif: f64,
    pub treatments_open: u8,
}

// The coefficients of an element. A Transparent uses the first two of k_pli, the first of h_pli and the first
// `treatments` of delta_r; any other kind all of k_pli and h_pli. One struct by value for every kind, whose arrays have room for any.
#[derive(Clone, Copy)]
pub struct Element {
    pub kind: Kind,
    pub treatments: usize,
    pub area: f64,
    pub pitch: f64,
    pub h_ce: f64,
    pub h_re: f64,
    pub h_ri: f64,
    pub solar_absorption_coeff: f64,
    pub therm_rad_to_sky: f64,
    pub k_pli: [f64; 5],
    pub h_pli: [f64; 4],
    pub delta_r: [f64; 4],
    pub first_hour: ElementHour,
}

// The standards' numbers that assembly and h_ci use.
#[derive(Clone, Copy)]
pub struct Coefficients {
    pub f_int_c: f64,
    pub f_sol_c: f64,
    pub k_m_int: f64,
    pub h_ci_horizontal: f64,
    pub h_ci_upwards: f64,
    pub h_ci_downwards: f64,
    pub pitch_limit_horiz_ceiling: f64,
    pub pitch_limit_horiz_floor: f64,
}

#[derive(Clone, Copy, PartialEq, Eq)]
pub enum HeatFlowDirection {
    Horizontal,
    Upwards,
    Downwards,
}

// The internal convective heat transfer coefficient, in W / (m2.K), with the direction of heat flow that it is for.
#[derive(Clone, Copy)]
pub struct SurfaceConvection {
    pub direction: HeatFlowDirection,
    pub h_ci: f64,
}

// BS EN ISO 52016-1, Tables B.11 and B.17; h_ci: BS EN ISO 13789, Table 8; and the pitches that part ceilings, walls and floors.
pub fn standard_coefficients() -> Coefficients
    ensures { result ≡ standard_coefficients }
{
    Coefficients {
        f_int_c: 0.4,
        f_sol_c: 0.1,
        k_m_int: 10000.0,
        h_ci_horizontal: 2.5,
        h_ci_upwards: 5.0,
        h_ci_downwards: 0.7,
        pitch_limit_horiz_ceiling: 60.0,
        pitch_limit_horiz_floor: 120.0,
    }
}

// The direction of heat flow at an inner surface.
#[tactic(auto, unfolding(crate::specs::Record::BuildingElement::heat_flow_direction))]
pub fn heat_flow_direction(
    c: Coefficients,
    pitch: f64,
    temp_int_air: f64,
    temp_int_surface: f64,
) -> HeatFlowDirection
    ensures { result ≡ heat_flow_direction c pitch temp_int_air temp_int_surface }
{
    if (c.pitch_limit_horiz_ceiling <= pitch) & (pitch <= c.pitch_limit_horiz_floor) {
        return HeatFlowDirection::Horizontal;
    }
    let inwards_heat_flow = temp_int_air < temp_int_surface;
    let is_floor = c.pitch_limit_horiz_floor < pitch;
    let is_ceiling = pitch < c.pitch_limit_horiz_ceiling;
    let upwards_heat_flow = (is_floor & inwards_heat_flow) | (is_ceiling & !inwards_heat_flow);
    if upwards_heat_flow {
        HeatFlowDirection::Upwards
    } else {
        HeatFlowDirection::Downwards
    }
}

// The coefficient of a direction of heat flow.
pub fn h_ci_of_direction(c: Coefficients, direction: HeatFlowDirection) -> f64
    ensures { result ≡ h_ci_of c direction }
{
    match direction {
        HeatFlowDirection::Horizontal => c.h_ci_horizontal,
        HeatFlowDirection::Upwards => c.h_ci_upwards,
        HeatFlowDirection::Downwards => c.h_ci_downwards,
    }
}

// The internal convective heat transfer coefficient at an inner surface, and the direction of heat flow: one test tells both.
pub fn h_ci(
    c: Coefficients,
    pitch: f64,
    temp_int_air: f64,
    temp_int_surface: f64,
) -> SurfaceConvection
    ensures { result ≡ surface_convection c pitch temp_int_air temp_int_surface }
{
    let direction = heat_flow_direction(c, pitch, temp_int_air, temp_int_surface);
    SurfaceConvection {
        direction,
        h_ci: h_ci_of_direction(c, direction),
    }
}

// h_pli of a Transparent: the resistances of the closed treatments are added to its own. It is exported for any number of treatments, which it cuts itself;
// with a slice each caller would have to.
pub fn h_pli_transparent(h: f64, delta_r: &[f64; 4], treatments: usize, treatments_open: u8) -> f64
    ensures { result ≡ h_pli_transparent h delta_r.now treatments treatments_open }
{
    let mut r = 1.0 / h;
    for (j, delta) in delta_r[..treatments.min(4)].iter().enumerate() {
        if treatments_open >> j & 1 == 0 {
            r = r + delta;
        }
    }
    1.0 / r
}

// A Transparent has a node at each surface only.
pub fn is_two_nodes(kind: Kind) -> bool
    ensures { result ≡ is_two_nodes kind }
{
    matches!(kind, Kind::Transparent)
}

#[tactic(auto, unfolding(crate::specs::Record::BuildingElement::number_of_nodes))]
pub fn number_of_nodes(kind: Kind) -> usize
    ensures { result ≡ number_of_nodes kind }
{
    if is_two_nodes(kind) { 2 } else { 5 }
}
