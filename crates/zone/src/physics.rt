// The equations of elements and zone, and the heat balance.
pub mod assembly;
pub mod balance;
pub mod convection;
pub mod equations;
pub mod fabric;
pub mod matrix;
pub mod node_layout;
pub mod operative;
pub mod slots;
pub mod terms;
pub mod ventilation;
