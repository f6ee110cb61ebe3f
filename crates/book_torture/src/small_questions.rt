// The small book cut at every byte, and asked the three questions.
use crate::questions::{Question, temperatures};
use crate::small_book::{Book, HOURS, PLAN, USED};
use house_books::{HEAD, Mark, Tally};
use std::io;

// Start-up's temperature and the hours'.
const TEMPERATURES: usize = HOURS + 1;

// The place of the cut says which two of the book's temperatures are asked for, and whether the value is one of them or lies
// between them; hours behind the cut are among them.
fn cut_is_right(whole: &Book, temperatures: &[f64; TEMPERATURES], cut: usize) -> bool {
    let Some(bytes) = whole.bytes.get(..cut) else {
        return false;
    };
    let a = temperatures[cut % TEMPERATURES];
    let b = temperatures[cut / TEMPERATURES % TEMPERATURES];
    let question = Question::by(a, b, cut % 2 == 0);
    if cut < HEAD {
        return question.is_refused_as_short(bytes);
    }
    let count = PLAN.whole_before(cut).saturating_add(1).min(TEMPERATURES);
    question.is_answered_as_walked(bytes, &temperatures[..count])
}

pub fn print_questions(rt: &impl Print, whole: &Book) -> io::Result<()> {
    let Some(temperatures) = temperatures::<TEMPERATURES>(whole.house, &whole.bytes, PLAN) else {
        return println!(rt; "the operative temperatures of the book: {}", Mark(false));
    };
    let is_right = |cut| cut_is_right(whole, &temperatures, cut);
    println!(rt;
        "cuts at every byte of the head, the three questions refused with 1: {}",
        Tally::of(0..HEAD, is_right)
    )?;
    println!(rt;
        "cuts at every byte behind it, the three questions answered as by a walk over the hours: {}",
        Tally::of(HEAD..USED + 1, is_right)
    )
}
