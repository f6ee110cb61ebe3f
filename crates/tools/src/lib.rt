// Questions over a year book, and its conversion, each of which takes the book's bytes up itself.
#![tactic(auto)]

mod above;
mod asked;
mod convert_error;
mod converter;
mod hours;
mod nearest;
mod promised;
mod question_error;
mod values;
mod within;

pub use above::first_above;
pub use convert_error::ConvertError;
pub use converter::{Converted, convert};
pub use nearest::nearest_hour;
pub use promised::promises;
pub use question_error::QuestionError;
pub use within::hours_within;
