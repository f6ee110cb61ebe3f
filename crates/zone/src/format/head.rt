// The head of a book: a zone in bytes.
ghost use Rattle.std.specs.Prelude.{◌≡◌, ◌+◌, ◌≤◌, ◌&&◌, leb, length, OnErr};
ghost use Rattle.zone.specs.Answers.{answered};
ghost use Rattle.zone.specs.Format.Layout.{length_size, shortest_length, longest_length, first_element};
ghost use Rattle.zone.specs.Inner.Format.{kind_valid, structure_within};
ghost use Rattle.zone.specs.Format.Head.{elements_end, structure_of};
ghost use Rattle.zone.specs.Inner.Head.{structured_head, head_read};

use crate::check::zone_tests::count_valid;
use crate::format::bytes::read_u32_be;
use crate::format::decode::read_zone;
use crate::format::element_layout::{element_size, kind_of, max_treatments};
use crate::format::layout::{
    AREA, BASIS_AT, COUNT_AT, FIRST_ELEMENT, LENGTH_SIZE, LONGEST_LENGTH, SHORTEST_LENGTH,
    TREATMENTS, VERSION_AT, VERSION_OF_HEAD,
};
use crate::record::refusal::Refusal;
use crate::record::zone_record::Zone;

// Whether a kind has this number, with so many treatments: what `kind_of` takes for a PartyWall past 5 is refused here.
fn kind_valid(number: u8, treatments: usize) -> bool
    ensures { result ≡ kind_valid number treatments }
{
    let kind = kind_of(number);
    let most = max_treatments(kind);
    (number <= 5) & (treatments <= most)
}

// Where the elements end: their structure, from the first element to `end`. The bytes and their end, as in the definition, whose kinds and sizes are read
// in all bytes, as the zone's values are: with `&s[..end]` each would need a law that a byte of the part is that of the whole.
fn elements_end(s: &[u8], end: usize, n: usize) -> Result<usize, Refusal>
    requires { (first_element ≤ end) × (end ≤ length s.now) }
    ensures { answered result ≡ elements_end s.now end n 0 first_element }
{
    let mut p = FIRST_ELEMENT;
    for i in 0..n {
        if end - p < AREA {
            return Err(Refusal::HeadLength);
        }
        let number = s[p];
        let treatments = usize::from(s[p + TREATMENTS]);
        if !kind_valid(number, treatments) {
            return Err(Refusal::Structure(i + 1));
        }
        let size = element_size(kind_of(number), treatments);
        if end - p < size {
            return Err(Refusal::HeadLength);
        }
        p += size;
    }
    Ok(p)
}

// The structure, once the head's own bytes are known to be there.
fn structure_within(s: &[u8], end: usize) -> Result<usize, Refusal>
    requires { (length_size + shortest_length ≤ end) × (end ≤ length s.now) }
    ensures { answered result ≡ structure_within s.now end }
{
    if s[VERSION_AT] != VERSION_OF_HEAD {
        return Err(Refusal::HeadVersion);
    }
    let n = usize::from(s[COUNT_AT]);
    let front = (s[BASIS_AT] <= 1) & count_valid(n);
    if !front {
        return Err(Refusal::Structure(0));
    }
    let elements = elements_end(s, end, n)?;
    if elements != end {
        return Err(Refusal::HeadLength);
    }
    Ok(end)
}

// Whether a head's bytes after its length are so many.
#[tactic(auto, using(crate::proofs::Laws::Ranges::partial_le_is))]
fn length_valid(length: usize) -> bool
    ensures { result ≡ (leb shortest_length length && leb length longest_length) }
{
    (SHORTEST_LENGTH..=LONGEST_LENGTH).contains(&length)
}

// Where a head ends: its structure, before any value is judged.
fn structure_of(s: &[u8]) -> Result<usize, Refusal>
    ensures { answered result ≡ structure_of s.now }
{
    if s.len() < LENGTH_SIZE {
        return Err(Refusal::HeadShort);
    }
    let length = read_u32_be(s, 0) as usize;
    if !length_valid(length) {
        return Err(Refusal::HeadLength);
    }
    let end = LENGTH_SIZE + length;
    if s.len() < end {
        return Err(Refusal::HeadShort);
    }
    structure_within(s, end)
}

// A byte string as a head, and its zone into one that is lent: the head's length, or 1 to 4, which leave the zone as it was. Its values are judged by
// those who use them. Lent, since the engine has no heap, and a zone of 5.4 KB handed up in a Result would lie on the stack more than once.
pub fn read_head(bytes: &[u8], zone: &mut Zone) -> Result<usize, Refusal>
    ensures head { head_read result zone.new ≡ structured_head bytes.now }
    ensures refused { OnErr result (zone.new ≡ zone.old) }
{
    let end = structure_of(bytes)?;
    read_zone(bytes, end, zone);
    Ok(end)
}
