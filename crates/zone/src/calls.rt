// The zone's calls.
pub mod hour_step;
pub mod next_hour;
pub mod operative;
pub mod start_up;
pub mod start_up_parts;
pub mod state;
pub mod update;
pub mod why;
