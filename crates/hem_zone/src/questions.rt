// The questions over a book: when did it get warm.
ghost use Rattle.std.specs.Prelude.{◌≡◌};
ghost use Rattle.tools.specs.Answers as Question;
ghost use Rattle.hem_zone.specs.Code.{answered};
ghost use Rattle.hem_zone.specs.Questions.{hour_or_none, hem_first_above_outcome, hem_hours_within_outcome, hem_nearest_hour_outcome};

use crate::code::error_code;
use tools::{QuestionError, first_above, hours_within, nearest_hour};

// HEM_NONE of the C header, for C has no Option: no hour has this number.
const NONE: u64 = u64::MAX;

// The hour, or the number of hours, or that there is none, into `hour`.
#[tactic(auto, unfolding(crate::specs::Code::answered, crate::specs::Code::answer_code, crate::specs::Code::lent_after))]
fn hour_out(answer: Result<Option<usize>, QuestionError>, hour: &mut u64) -> u32
    ensures { (result, hour.new) ≡ answered hour_or_none hour.old (Question.answered answer) }
{
    match answer {
        Err(e) => error_code(e),
        Ok(found) => {
            *hour = found.map_or(NONE, |h| h as u64);
            0
        }
    }
}

// The first hour at which the operative temperature goes from at or below the value to above it.
#[tactic(auto, unfolding(crate::specs::Questions::hem_first_above_outcome))]
#[unsafe(no_mangle)]
pub extern "C" fn hem_first_above(bytes: &[u8], value: f64, hour: &mut u64) -> u32
    ensures { (result, hour.new) ≡ hem_first_above_outcome bytes.now value hour.old }
{
    hour_out(first_above(bytes, value), hour)
}

// The number of hours whose operative temperature lies within a band, its ends included.
#[tactic(auto, unfolding(crate::specs::Questions::hem_hours_within_outcome, crate::specs::Code::answered, crate::specs::Code::answer_code, crate::specs::Code::lent_after))]
#[unsafe(no_mangle)]
pub extern "C" fn hem_hours_within(bytes: &[u8], lower: f64, upper: f64, hours: &mut u64) -> u32
    ensures { (result, hours.new) ≡ hem_hours_within_outcome bytes.now lower upper hours.old }
{
    hour_out(hours_within(bytes, lower, upper).map(Some), hours)
}

// The hour whose operative temperature is nearest to the value, the earlier on a tie.
#[tactic(auto, unfolding(crate::specs::Questions::hem_nearest_hour_outcome))]
#[unsafe(no_mangle)]
pub extern "C" fn hem_nearest_hour(bytes: &[u8], value: f64, hour: &mut u64) -> u32
    ensures { (result, hour.new) ≡ hem_nearest_hour_outcome bytes.now value hour.old }
{
    hour_out(nearest_hour(bytes, value), hour)
}
