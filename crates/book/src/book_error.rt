// Why a call on a book is refused: what the zone refuses, and the book's own 16 and 17. Number and index name one error.
ghost use Rattle.std.specs.Prelude.{◌≡◌};
ghost use Rattle.book.specs.Answers.{number_of, index_of};
ghost use Rattle.zone.specs.declared.record.refusal.Refusal as Zones;
ghost use Rattle.book.specs.declared.book_error.BookError.TheVariants.{Zone};

use zone::Refusal;

#[derive(Clone, Copy, Debug, PartialEq, Eq)]
pub enum BookError {
    // What the zone refuses: a head, start-up, an hour; and a false entry, 18 as for an hour's version.
    Zone(Refusal),
    // The buffer has too little room.
    BufferShort,
    // As many entries as a book can hold, or more.
    BookFull,
}

impl BookError {
    // Its number (Specification, Table of refusals).
    pub fn number(self) -> u32
        ensures { result ≡ number_of self }
    {
        match self {
            BookError::Zone(e) => e.number(),
            BookError::BufferShort => 16,
            BookError::BookFull => 17,
        }
    }

    // And its index, 0 where they give none.
    pub fn index(self) -> usize
        ensures { result ≡ index_of self }
    {
        match self {
            BookError::Zone(e) => e.index(),
            BookError::BufferShort | BookError::BookFull => 0,
        }
    }
}

impl From<Refusal> for BookError {
    ghost from_gives = { λ e r. r ≡ Zone e };

    fn from(e: Refusal) -> BookError {
        BookError::Zone(e)
    }
}

// A whole entry that is not what the hour step gives; of an append a version that no hour has, or that is below the last entry's. With its index.
pub fn false_entry(index: usize) -> BookError
    ensures { result ≡ Zone (Zones.Refusal.FalseEntry index) }
{
    BookError::Zone(Refusal::FalseEntry(index))
}
