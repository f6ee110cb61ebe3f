// The calls on a book; their parameters are those of the C interface. What a caller holds of a book is `temps`, `nodes`, `count`, `used` and `last_version`.
ghost use Rattle.std.specs.Prelude.{◌≡◌};
ghost use Rattle.book.specs.Answers.{given_of, answer_of};
ghost use Rattle.hem_zone.specs.Inner.Answers.{by_answer, held_in};
ghost use Rattle.hem_zone.specs.Book.{c_book_state, book_state_of, hem_begin_outcome, hem_append_outcome, hem_take_up_outcome};

use crate::arrays::state_in;
use crate::code::error_code;
use book::{BookError, BookState, Reply, append, begin, take_up};
use zone::{Limits, Zone, read_head};

// What a caller holds of a book, where it stands in C: the C interface lends it in five parts.
#[derive(Drop)]
struct HeldBook<'a> {
    temps: &'a mut [f64; 121],
    nodes: &'a mut u64,
    count: &'a mut u64,
    used: &'a mut u64,
    last_version: &'a mut u64,
}

impl HeldBook<'_> {
    fn values(&self) -> BookState
        ensures { given_of result ≡ book_state_of (held_in self.now) }
    {
        BookState {
            state: state_in(self.temps, *self.nodes),
            count: *self.count as usize,
            used: *self.used as usize,
            last_version: *self.last_version,
        }
    }

    // What a call returns; where the book accepts it, the values that it hands back are written.
    #[tactic(auto, unfolding(crate::specs::Inner::Answers::by_answer))]
    fn reply_out(self, reply: Reply) -> u32
        ensures { let (temps, (nodes, (count, (used, (last_version, _))))) = self.exit in
            (result, c_book_state temps.now nodes.now count.now used.now last_version.now) ≡ by_answer (answer_of reply) (held_in self.entry) }
    {
        match reply.answer {
            Err(e) => error_code(e.into()),
            Ok(()) => {
                let v = reply.values;
                let temps = v.state.temps;
                *self.temps = temps;
                *self.nodes = v.state.nodes as u64;
                *self.count = v.count as u64;
                *self.used = v.used as u64;
                *self.last_version = v.last_version;
                0
            }
        }
    }
}

// Begins a book: the head into the buffer, the values of a book with no entries.
#[tactic(auto, using(crate::proofs::Outcomes::begin_by_answer))]
#[unsafe(no_mangle)]
pub extern "C" fn hem_begin(
    head: &[u8],
    buf: &mut [u8],
    temps: &mut [f64; 121],
    nodes: &mut u64,
    count: &mut u64,
    used: &mut u64,
    last_version: &mut u64,
) -> u32
    ensures { (result, (buf.new, c_book_state temps.new nodes.new count.new used.new last_version.new))
        ≡ hem_begin_outcome head.now buf.old (c_book_state temps.old nodes.old count.old used.old last_version.old) }
{
    let held = HeldBook {
        temps,
        nodes,
        count,
        used,
        last_version,
    };
    let x = begin(held.values(), head, buf);
    held.reply_out(x)
}

// Appends the entry of one hour, of the version that is named, behind the used bytes. The zone is that of the given head; the limits count from version 3
// on.
#[tactic(auto, using(crate::proofs::Outcomes::append_by_structure, crate::proofs::Outcomes::outcome_answered), unfolding(book::specs::Model::Calls::append, crate::specs::Inner::Answers::by_answer))]
#[unsafe(no_mangle)]
pub extern "C" fn hem_append(
    head: &[u8],
    buf: &mut [u8],
    temps: &mut [f64; 121],
    nodes: &mut u64,
    count: &mut u64,
    used: &mut u64,
    last_version: &mut u64,
    conditions: &[u8],
    version: u64,
    heating_limit: f64,
    cooling_limit: f64,
) -> u32
    ensures { let given = c_book_state temps.old nodes.old count.old used.old last_version.old in
        (result, (buf.new, c_book_state temps.new nodes.new count.new used.new last_version.new))
        ≡ hem_append_outcome head.now buf.old given conditions.now version heating_limit cooling_limit }
{
    let mut zone = Zone::none();
    match read_head(head, &mut zone) {
        Err(e) => error_code(BookError::from(e).into()),
        Ok(_) => {
            let limits = Limits {
                heating: heating_limit,
                cooling: cooling_limit,
            };
            let held = HeldBook {
                temps,
                nodes,
                count,
                used,
                last_version,
            };
            let x = append(&zone, held.values(), conditions, version, limits, buf);
            held.reply_out(x)
        }
    }
}

// Takes up the bytes of a book: the values after its last whole entry.
#[tactic(auto, using(crate::proofs::Outcomes::take_up_by_answer))]
#[unsafe(no_mangle)]
pub extern "C" fn hem_take_up(
    bytes: &[u8],
    temps: &mut [f64; 121],
    nodes: &mut u64,
    count: &mut u64,
    used: &mut u64,
    last_version: &mut u64,
) -> u32
    ensures { (result, c_book_state temps.new nodes.new count.new used.new last_version.new)
        ≡ hem_take_up_outcome bytes.now (c_book_state temps.old nodes.old count.old used.old last_version.old) }
{
    let held = HeldBook {
        temps,
        nodes,
        count,
        used,
        last_version,
    };
    let x = take_up(held.values(), bytes);
    held.reply_out(x)
}
