// How a call fails to answer with values.
use crate::refusal::Refusal;
use book::BookError;
use tools::{ConvertError, QuestionError};

#[derive(Clone, Copy, Debug, PartialEq, Eq)]
pub enum Failure {
    // By the zone, the book, a question or the converter.
    Refused(Refusal),
    // What a call must leave as it was has changed.
    Changed,
    // Of a demand and its reason only one is refused, or each with another number or index.
    RefusedOtherwise,
}

// Four, as of worked_houses' `Refusal`: `?` converts in one step, so a type of the program around a shared one would need them again.
impl From<zone::Refusal> for Failure {
    fn from(refusal: zone::Refusal) -> Self {
        Failure::refused(refusal.number(), refusal.index())
    }
}

impl From<BookError> for Failure {
    fn from(error: BookError) -> Self {
        Failure::refused(error.number(), error.index())
    }
}

impl From<QuestionError> for Failure {
    fn from(error: QuestionError) -> Self {
        Failure::refused(error.number(), error.index())
    }
}

impl From<ConvertError> for Failure {
    fn from(error: ConvertError) -> Self {
        Failure::refused(error.number(), error.index())
    }
}

impl Failure {
    fn refused(number: u32, index: usize) -> Self {
        Failure::Refused(Refusal { number, index })
    }

    // As a row stores it: without an index where it is none of the engine's.
    pub fn refusal(self) -> Refusal {
        match self {
            Failure::Refused(refusal) => refusal,
            Failure::RefusedOtherwise | Failure::Changed => Refusal {
                number: self.number(),
                index: 0,
            },
        }
    }

    // The number by which the summary names it: beside the refusals' own numbers two that none of them has.
    pub fn number(self) -> u32 {
        match self {
            Failure::Refused(refusal) => refusal.number,
            Failure::RefusedOtherwise => 98,
            Failure::Changed => 99,
        }
    }
}
