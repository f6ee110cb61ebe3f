// Heat from the air to inner surfaces by direction of heat flow (Specification, Heat balance): rooms worked out by hand, row by row.
pub mod room;
pub mod rooms;
pub mod rows;
