// What the engine refuses.
use book::BookError;
use std::fmt::{self, Display};
use tools::{ConvertError, QuestionError};
use weather::WeatherError;

// The refusals that the rows meet. Their numbers are written here as the documents give them: the rows lay them beside the engine's.
#[derive(Clone, Copy, Debug, PartialEq, Eq)]
pub enum Cause {
    HeadShort = 1,
    Structure = 4,
    ZoneValue = 5,
    StateInvalid = 6,
    ConditionsSize = 7,
    ConditionsCode = 8,
    ConditionsValue = 9,
    CoolingBelowHeating = 10,
    VentilationBelowHeating = 11,
    Divisor = 12,
    Temperature = 13,
    NoEffect = 14,
    BufferShort = 16,
    BookFull = 17,
    FalseEntry = 18,
    LimitValue = 19,
    QuestionValue = 20,
    WeatherAbsent = 21,
    WeatherInvalid = 22,
    WeatherMissing = 23,
    Version1Entry = 24,
}

// A refusal of the zone, the book, a question, a line of weather or a conversion, with the index of the element or the hour that it is about, 0 where it is
// about none. By number: were what is expected an error of the engine, its `number()` would be laid beside itself, and a wrong number would be `ok`.
#[derive(Clone, Copy, Debug, PartialEq, Eq)]
pub struct Refusal {
    pub number: u32,
    pub index: usize,
}

impl Cause {
    pub fn at(self, index: usize) -> Refusal {
        Refusal {
            number: self as u32,
            index,
        }
    }
}

// No index of the rows is above 9.
impl Display for Refusal {
    fn fmt<W: fmt::Write>(&self, f: &mut fmt::Formatter<W>) -> fmt::Result {
        let Refusal { number, index } = *self;
        let length = if number < 10 { 14 } else { 15 };
        let blanks = f.width().unwrap_or(0).saturating_sub(length);
        write!(f, "{:blanks$}refused {number} at {index}", "")
    }
}

// One for each error, as of replay's `Failure`: `?` converts in one step. A shared type could not print in the rows' columns, and a type of the
// program around it would need them again.
impl From<zone::Refusal> for Refusal {
    fn from(refusal: zone::Refusal) -> Refusal {
        Refusal::from(BookError::from(refusal))
    }
}

impl From<BookError> for Refusal {
    fn from(refusal: BookError) -> Refusal {
        Refusal::from(QuestionError::from(refusal))
    }
}

impl From<QuestionError> for Refusal {
    fn from(refusal: QuestionError) -> Refusal {
        Refusal {
            number: refusal.number(),
            index: refusal.index(),
        }
    }
}

impl From<ConvertError> for Refusal {
    fn from(refusal: ConvertError) -> Refusal {
        Refusal {
            number: refusal.number(),
            index: refusal.index(),
        }
    }
}

impl From<WeatherError> for Refusal {
    fn from(refusal: WeatherError) -> Refusal {
        Refusal {
            number: refusal.number(),
            index: 0,
        }
    }
}

// What a call answers, in a row's column of eighteen.
#[derive(Clone, Copy, PartialEq, Eq)]
pub struct Answer<T>(pub Result<T, Refusal>);

impl<T: Display> Display for Answer<T> {
    fn fmt<W: fmt::Write>(&self, f: &mut fmt::Formatter<W>) -> fmt::Result {
        match &self.0 {
            Ok(answer) => Display::fmt(answer, f),
            Err(refusal) => Display::fmt(refusal, f),
        }
    }
}
