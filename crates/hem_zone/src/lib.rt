// The C interface (include/hem_zone.h): the zone's and the book's calls on lent arrays, the questions over a book, its
// conversion and the weather of a file, for C and Rust to link.
#![tactic(auto)]

mod arrays;
mod book_calls;
mod code;
mod convert;
mod head;
mod promised;
mod questions;
mod session;
mod step;
mod weather_file;
mod why;

pub use book_calls::{hem_append, hem_begin, hem_take_up};
pub use convert::hem_convert;
pub use head::hem_head;
pub use promised::promises;
pub use questions::{hem_first_above, hem_hours_within, hem_nearest_hour};
pub use session::{append_in_session, begin_in_session, take_up_in_session};
pub use step::{hem_demand, hem_hour_step, hem_operative, hem_start_up, hem_update};
pub use weather_file::hem_weather;
pub use why::hem_why;
