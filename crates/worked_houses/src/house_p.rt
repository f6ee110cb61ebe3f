// House P (Specification, House P), executed row by row.
pub mod book_rows;
pub mod house;
pub mod limited;
pub mod met;
pub mod questions;
pub mod rows;
pub mod surface_convection;
