// Why the program ends early: a line cannot be written, or a call fails of which nothing is said.
use crate::refusal::Refusal;
use book::BookError;
use std::fmt::{self, Debug, Display};
use std::io;

#[derive(Drop)]
pub enum Failure {
    Write(io::Error),
    Refused(Refusal),
    NoTriggerRate,
}

pub type Result<T> = std::result::Result<T, Failure>;

// As it is printed where `main` ends with it.
impl Debug for Failure {
    fn fmt<W: fmt::Write>(&self, f: &mut fmt::Formatter<W>) -> fmt::Result {
        match self {
            Failure::Write(error) => Debug::fmt(error, f),
            Failure::Refused(refusal) => Display::fmt(refusal, f),
            Failure::NoTriggerRate => write!(f, "no rate triggers heating"),
        }
    }
}

impl From<io::Error> for Failure {
    fn from(error: io::Error) -> Self {
        Failure::Write(error)
    }
}

impl From<Refusal> for Failure {
    fn from(refusal: Refusal) -> Self {
        Failure::Refused(refusal)
    }
}

impl From<zone::Refusal> for Failure {
    fn from(refusal: zone::Refusal) -> Self {
        Failure::Refused(Refusal::from(refusal))
    }
}

impl From<BookError> for Failure {
    fn from(error: BookError) -> Self {
        Failure::Refused(Refusal::from(error))
    }
}
