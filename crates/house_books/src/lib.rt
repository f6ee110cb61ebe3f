// A house, its hours, and books of them in three versions, a whole year among them: what the programs stand on that cut books and
// damage them.
#![tactic(auto)]

mod changed;
mod entry;
mod fill;
mod fixed_rate;
mod hours;
mod house;
mod layout;
mod plan;
mod replies;
mod tally;
mod version;
pub mod year;
mod year_cuts;

pub use changed::with_bytes;
pub use entry::{Entry, Holding};
pub use fill::{append_hours, begin_and_append};
pub use fixed_rate::{has_fixed_rate, put_fixed_rate, put_rate_twice};
pub use hours::{ONE_RATE, conditions, has_one_rate, limits_at};
pub use house::{House, head};
pub use layout::{
    CONDITIONS, CONDITIONS_PLACE, COOLING_LIMIT_PLACE, CUT_OFF, ENTRY, FRONT, HEAD, LENGTH, LIMITS,
    LIMITS_PLACE, LONG_ENTRY, NODES, RESULT_TEMPERATURES, RESULTS, SECOND_RATE_PLACE, TEMPERATURES,
    TRIGGER, TRIGGER_RATE, VERSION_PLACE, YEAR,
};
pub use plan::{Entries, Plan};
pub use replies::{
    accepted, has_entries, is_refused, is_take_up_refused, made_up, same_book_states, same_states,
    taken_up,
};
pub use tally::{Mark, Tally, count_one};
pub use version::{VERSION_BYTES, VERSIONS, Version};
pub use year_cuts::{Half, SPREAD, print_year_cuts};
