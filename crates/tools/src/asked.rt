// A book of which a question is asked.
ghost use Rattle.std.specs.Prelude.{◌≡◌, Float, List};
ghost use Rattle.tools.specs.Answers.{answered};
ghost use Rattle.tools.specs.Inner.Asked.{asked_of, asked_in, answer_of};
ghost use Rattle.tools.specs.Inner.Hours.{hours_left};
ghost use Rattle.tools.specs.declared.asked.AskedBook.{AskedBook};

use crate::hours::Hours;
use crate::question_error::QuestionError;
use book::{BookError, read_book};
use zone::{State, Zone, operative_of};

// Start-up's operative temperature, and the hours.
#[derive(Drop)]
pub struct AskedBook<'a> {
    pub start: f64,
    pub hours: Hours<'a>,
}

// The book in these bytes, whose zone goes to the one that is lent.
#[tactic(auto, using(crate::proofs::Laws::Asked::asked_cases))]
fn asked_book<'a>(bytes: &'a [u8], zone: &'a mut Zone) -> Result<AskedBook<'a>, BookError>
    ensures { asked_in result ≡ asked_of bytes.now }
{
    let mut start = State {
        nodes: 0,
        temps: [0.0; 121],
    };
    let book = read_book(bytes, zone, &mut start);
    let head = book.head?;
    book.values?;
    Ok(AskedBook {
        start: operative_of(zone, &start.temps),
        hours: Hours {
            zone,
            entries: &bytes[head..],
        },
    })
}

// What a question answers of the book in these bytes, where what it names is valid: that is tested after the book.
#[tactic(auto, unfolding(crate::specs::Inner::Asked::answer_of))]
pub fn answer_of<R, F: FnOnce(AskedBook) -> R>(
    bytes: &[u8],
    valid: bool,
    question: F,
) -> Result<R, QuestionError>
    requires callable { F.IsAlwaysCallable question }
    ensures { (term : Float → List Float → R) → ((b : AskedBook) (r : R) → F.post question b r → r ≡ term b.start (hours_left b.hours)) → answered result ≡ answer_of bytes.now valid term }
{
    let mut zone = Zone::none();
    let book = asked_book(bytes, &mut zone)?;
    if !valid {
        return Err(QuestionError::QuestionValue);
    }
    Ok(question(book))
}
