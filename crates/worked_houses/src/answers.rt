// The three questions over a book (Specification, Questions over a book), a row for each: what is answered, and what is expected.
use crate::refusal::{Answer, Refusal};
use crate::table::row;
use std::fmt::{self, Display};
use std::io;
use tools::QuestionError;

// The hour that a question finds, if any.
#[derive(Clone, Copy, PartialEq, Eq)]
struct Found(Option<usize>);

impl Display for Found {
    fn fmt<W: fmt::Write>(&self, f: &mut fmt::Formatter<W>) -> fmt::Result {
        match self.0 {
            Some(hour) => Display::fmt(&hour, f),
            None => f.pad("none"),
        }
    }
}

fn print_found(
    rt: &impl Print,
    asked: &str,
    came: Result<Option<usize>, QuestionError>,
    expected: Result<Option<usize>, Refusal>,
) -> io::Result<()> {
    let came = came.map(Found).map_err(Refusal::from);
    row(rt, asked, Answer(came), Answer(expected.map(Found)))
}

pub fn above(
    rt: &impl Print,
    asked: &str,
    book: &[u8],
    value: f64,
    expected: Result<Option<usize>, Refusal>,
) -> io::Result<()> {
    print_found(rt, asked, tools::first_above(book, value), expected)
}

pub fn within(
    rt: &impl Print,
    asked: &str,
    book: &[u8],
    lower: f64,
    upper: f64,
    expected: Result<usize, Refusal>,
) -> io::Result<()> {
    let came = tools::hours_within(book, lower, upper).map_err(Refusal::from);
    row(rt, asked, Answer(came), Answer(expected))
}

pub fn nearest(
    rt: &impl Print,
    asked: &str,
    book: &[u8],
    value: f64,
    expected: Result<Option<usize>, Refusal>,
) -> io::Result<()> {
    print_found(rt, asked, tools::nearest_hour(book, value), expected)
}
