// An hour's solves: ventilation, load and demand.
pub mod control;
mod cooling_potential;
mod demand;
pub mod free;
pub mod hour;
pub mod hour_kept;
pub mod hour_start;
pub mod hourly_calculation;
pub mod kept;
pub mod load;
pub mod reason;
pub mod rule;
pub mod simulation_time;
pub mod solves;
pub mod time_step;
pub mod windows;
