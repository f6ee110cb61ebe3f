// The first hour at which the operative temperature goes from at or below a value to above it.
ghost use Rattle.std.specs.Prelude.{◌≡◌};
ghost use Rattle.tools.specs.Questions.{first_above, first_above_in};
ghost use Rattle.tools.specs.Answers.{answered};
ghost use Rattle.tools.specs.Inner.Hours.{hours_left};

use crate::asked::answer_of;
use crate::hours::Hours;
use crate::question_error::QuestionError;
use crate::values::{goes_above, value_valid};

// `start` is the temperature before the first hour.
#[tactic(auto, using(crate::proofs::Laws::Above::none_at_first))]
fn hour_above(hours: Hours, start: f64, value: f64) -> Option<usize>
    ensures { result ≡ first_above value start (hours_left hours.entry) }
{
    let mut before = start;
    for (hour, temperature) in hours.enumerate() {
        if goes_above(value, before, temperature) {
            return Some(hour);
        }
        before = temperature;
    }
    None
}

// The book's bytes are taken up first; then the value is tested.
#[tactic(auto, using(crate::proofs::Laws::Asked::above_asked))]
pub fn first_above(bytes: &[u8], value: f64) -> Result<Option<usize>, QuestionError>
    ensures { answered result ≡ first_above_in bytes.now value }
{
    answer_of(bytes, value_valid(value), |book| {
        hour_above(book.hours, book.start, value)
    })
}
