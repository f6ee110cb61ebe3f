// Why this rate, why this load: hours of a room with windows worked out by hand, row by row.
// Specification, Why this rate, why this load.
pub mod answers;
pub mod bases;
pub mod close;
pub mod coarse;
pub mod found;
pub mod lost_load;
pub mod order;
pub mod reasons;
pub mod refusals;
pub mod room;
pub mod temperatures;
