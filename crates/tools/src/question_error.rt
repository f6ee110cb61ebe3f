// Why a question is refused.
ghost use Rattle.std.specs.Prelude.{◌≡◌};
ghost use Rattle.tools.specs.Answers.{number_of, index_of};
ghost use Rattle.tools.specs.declared.question_error.QuestionError.TheVariants.{Book};

use book::BookError;

#[derive(Clone, Copy, Debug, PartialEq, Eq)]
pub enum QuestionError {
    // What a take-up of the book refuses.
    Book(BookError),
    // A value not finite or outside ±1e6, or a band whose lower end is above its upper.
    QuestionValue,
}

impl QuestionError {
    // Its number (Specification, Table of refusals).
    pub fn number(self) -> u32
        ensures { result ≡ number_of self }
    {
        match self {
            QuestionError::Book(e) => e.number(),
            QuestionError::QuestionValue => 20,
        }
    }

    // And its index, 0 where they give none.
    pub fn index(self) -> usize
        ensures { result ≡ index_of self }
    {
        match self {
            QuestionError::Book(e) => e.index(),
            QuestionError::QuestionValue => 0,
        }
    }
}

impl From<BookError> for QuestionError {
    ghost from_gives = { λ e r. r ≡ Book e };

    fn from(e: BookError) -> QuestionError {
        QuestionError::Book(e)
    }
}
