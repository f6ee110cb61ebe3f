// The hour whose operative temperature is nearest to a value, the earlier on a tie.
ghost use Rattle.std.specs.Prelude.{◌≡◌};
ghost use Rattle.tools.specs.Questions.{nearest_hour, nearest_hour_in};
ghost use Rattle.tools.specs.Answers.{answered};
ghost use Rattle.tools.specs.Inner.Hours.{hours_left};

use crate::asked::answer_of;
use crate::hours::Hours;
use crate::question_error::QuestionError;
use crate::values::{distance, nearer, value_valid};

// An earlier hour gives way to a smaller distance only.
#[tactic(auto, using(crate::proofs::Laws::Nearest::nearest_at_first))]
fn hour_nearest(hours: Hours, value: f64) -> Option<usize>
    ensures { result ≡ nearest_hour value (hours_left hours.entry) }
{
    let mut nearest: Option<(usize, f64)> = None;
    for (hour, temperature) in hours.enumerate() {
        let d = distance(value, temperature);
        if nearest.is_none_or(|(_, least)| nearer(d, least)) {
            nearest = Some((hour, d));
        }
    }
    nearest.map(|(hour, _)| hour)
}

// The book's bytes are taken up first; then the value is tested.
#[tactic(auto, using(crate::proofs::Laws::Asked::nearest_asked))]
pub fn nearest_hour(bytes: &[u8], value: f64) -> Result<Option<usize>, QuestionError>
    ensures { answered result ≡ nearest_hour_in bytes.now value }
{
    answer_of(bytes, value_valid(value), |book| {
        hour_nearest(book.hours, value)
    })
}
