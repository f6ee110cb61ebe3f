// The number that a call returns: C has no Result, so a refusal is a number there.
ghost use Rattle.std.specs.Prelude.{◌≡◌};
ghost use Rattle.tools.specs.Answers as Question;
ghost use Rattle.hem_zone.specs.Code.{refusal_code};
ghost use Rattle.hem_zone.specs.Inner.Answers.{code_of};

use book::BookError;
use tools::QuestionError;
use zone::Refusal;

// number + 256 * index, in 32 bits.
#[tactic(auto, using(crate::proofs::Laws::Code::low_bits))]
pub fn refusal_code(number: u32, index: usize) -> u32
    ensures { result ≡ refusal_code number index }
{
    let low = index % 16777216;
    let sum = number as u64 + 256 * (low as u64);
    (sum % 4294967296) as u32
}

// A refusal's; a question's errors have the zone's and the book's among them.
pub fn error_code(e: QuestionError) -> u32
    ensures { result ≡ refusal_code (Question.number_of e) (Question.index_of e) }
{
    refusal_code(e.number(), e.index())
}

// 0, or the code of the refusal.
pub fn code_of(answer: Result<(), Refusal>) -> u32
    ensures { result ≡ code_of answer }
{
    match answer {
        Err(e) => error_code(BookError::from(e).into()),
        Ok(()) => 0,
    }
}
