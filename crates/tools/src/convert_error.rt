// Why a book is not converted.
ghost use Rattle.std.specs.Prelude.{◌≡◌};
ghost use Rattle.tools.specs.ConvertAnswers.{number_of, index_of};
ghost use Rattle.tools.specs.declared.convert_error.ConvertError.TheVariants.{Book};

use book::BookError;

#[derive(Clone, Copy, Debug, PartialEq, Eq)]
pub enum ConvertError {
    // What a take-up of the book refuses.
    Book(BookError),
    // It has an entry of version 1.
    Version1Entry,
    // The output is shorter than the book's used bytes.
    BufferShort,
}

impl ConvertError {
    // Its number (Specification, Table of refusals).
    pub fn number(self) -> u32
        ensures { result ≡ number_of self }
    {
        match self {
            ConvertError::Book(e) => e.number(),
            ConvertError::Version1Entry => 24,
            ConvertError::BufferShort => 16,
        }
    }

    // And its index, 0 where they give none.
    pub fn index(self) -> usize
        ensures { result ≡ index_of self }
    {
        match self {
            ConvertError::Book(e) => e.index(),
            ConvertError::Version1Entry | ConvertError::BufferShort => 0,
        }
    }
}

impl From<BookError> for ConvertError {
    ghost from_gives = { λ e r. r ≡ Book e };

    fn from(e: BookError) -> ConvertError {
        ConvertError::Book(e)
    }
}
