// The number of hours whose operative temperature lies within a band, its ends included.
ghost use Rattle.std.specs.Prelude.{◌≡◌};
ghost use Rattle.tools.specs.Questions.{hours_within, hours_within_in};
ghost use Rattle.tools.specs.Answers.{answered};
ghost use Rattle.tools.specs.Inner.Hours.{hours_left};

use crate::asked::answer_of;
use crate::hours::Hours;
use crate::question_error::QuestionError;
use crate::values::{band_valid, is_within};

fn count_within(hours: Hours, lower: f64, upper: f64) -> usize
    ensures { result ≡ hours_within lower upper (hours_left hours.entry) }
{
    hours.filter(|t| is_within(lower, upper, *t)).count()
}

// The book's bytes are taken up first; then the band is tested.
#[tactic(auto, using(crate::proofs::Laws::Asked::within_asked))]
pub fn hours_within(bytes: &[u8], lower: f64, upper: f64) -> Result<usize, QuestionError>
    ensures { answered result ≡ hours_within_in bytes.now lower upper }
{
    answer_of(bytes, band_valid(lower, upper), |book| {
        count_within(book.hours, lower, upper)
    })
}
