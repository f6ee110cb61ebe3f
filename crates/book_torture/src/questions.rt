// The three questions over a book (Specification, Questions over a book) against a plain walk over its hours: their temperatures are read from the
// bytes that end each entry, and made operative by the call on a state.
use crate::walk::state_after;
use book::BookError;
use house_books::{House, Plan};
use std::cmp::OrderedFloat;
use tools::QuestionError;
use zone::Refusal;

// The value that is to be exceeded, or come near to, and the ends of a band.
#[derive(Clone, Copy)]
pub struct Question {
    value: f64,
    lower: f64,
    upper: f64,
}

// The first hour above the value, if any, the number of hours within the band, and the hour nearest to the value.
#[derive(Clone, Copy, PartialEq, Eq)]
struct Answers {
    above: Result<Option<usize>, QuestionError>,
    within: Result<usize, QuestionError>,
    nearest: Result<Option<usize>, QuestionError>,
}

// The operative temperatures of a book: first start-up's, then the one after each hour.
pub fn temperatures<const N: usize>(house: &House, b: &[u8], plan: Plan) -> Option<[f64; N]> {
    let mut temperatures = [0.0; N];
    for (count, temperature) in temperatures.iter_mut().enumerate() {
        *temperature = house.temp_operative(&state_after(house, b, plan.entries(count)))?;
    }
    Some(temperatures)
}

impl Question {
    // By two temperatures of a book: the value is one of them, or lies halfway between them.
    pub fn by(a: f64, b: f64, between: bool) -> Question {
        Question {
            value: if between { (a + b) / 2.0 } else { a },
            lower: a.min(b),
            upper: a.max(b),
        }
    }

    fn answers(self, bytes: &[u8]) -> Answers {
        Answers {
            above: tools::first_above(bytes, self.value),
            within: tools::hours_within(bytes, self.lower, self.upper),
            nearest: tools::nearest_hour(bytes, self.value),
        }
    }

    // Of the hours behind start-up's temperature.
    fn walked(self, temperatures: &[f64]) -> Answers {
        let Question {
            value,
            lower,
            upper,
        } = self;
        let hours = temperatures.get(1..).unwrap_or(&[]);
        let above = temperatures
            .iter()
            .zip(hours)
            .position(|(before, after)| *before <= value && value < *after);
        let within = hours
            .iter()
            .filter(|t| lower <= **t && **t <= upper)
            .count();
        let nearest = hours
            .iter()
            .enumerate()
            .min_by_key(|(_, t)| OrderedFloat((**t - value).abs()));
        Answers {
            above: Ok(above),
            within: Ok(within),
            nearest: Ok(nearest.map(|(hour, _)| hour)),
        }
    }

    // Of bytes whose hours have these temperatures, behind start-up's.
    pub fn is_answered_as_walked(self, bytes: &[u8], temperatures: &[f64]) -> bool {
        self.answers(bytes) == self.walked(temperatures)
    }

    // Of bytes that end within the head.
    pub fn is_refused_as_short(self, bytes: &[u8]) -> bool {
        let short = QuestionError::Book(BookError::Zone(Refusal::HeadShort));
        let short = Answers {
            above: Err(short),
            within: Err(short),
            nearest: Err(short),
        };
        self.answers(bytes) == short
    }
}
