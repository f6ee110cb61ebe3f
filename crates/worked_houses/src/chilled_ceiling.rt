// A room with a chilled ceiling, which heats mostly by radiation and cools mostly by convection.
pub mod books;
pub mod differing;
pub mod hours;
pub mod limit_books;
pub mod limit_entries;
pub mod limit_values;
pub mod limited;
pub mod questions;
pub mod room;
pub mod unknown;
