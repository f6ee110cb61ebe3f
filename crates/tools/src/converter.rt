// The converter: the hours of a book with the fixed rate, code 0, written anew with code 1 and the rate twice.
ghost use Rattle.std.specs.Prelude.{◌≡◌, ◌≤◌, ◌<◌, ◌^◌, length, map, eqb};
ghost use Rattle.book.specs.Model.Bytes.{concat};
ghost use Rattle.book.specs.Model.Calls.{whole_entries};
ghost use Rattle.book.specs.Year.{year_interface};
ghost use Rattle.zone.specs.Format.Layout.{version_in};
ghost use Rattle.tools.specs.ConvertAnswers.{answered, convert_outcome};
ghost use Rattle.tools.specs.Inner.Convert.{converted_entry, AllLong, least_entry, first_is_version_1, Accepts};

use crate::convert_error::ConvertError;
use book::{BookError, BookState, FRONT_SIZE, LENGTH_SIZE, ReadRecord, read_book, read_record};
use zone::{State, Zone};

// Of a converted book: the number of its hours, and its used length.
#[derive(Clone, Copy)]
pub struct Converted {
    pub count: usize,
    pub used: usize,
}

// In an entry: its version.
const VERSION: usize = LENGTH_SIZE;

// The rate code, and behind it the two rates.
const RATE_CODE: usize = FRONT_SIZE + zone::RATE_CODE;

const FIRST_RATE: usize = FRONT_SIZE + zone::FIRST_RATE;

const SECOND_RATE: usize = FRONT_SIZE + zone::SECOND_RATE;

// Behind them its elements' parts: an entry has all the bytes before these.
const LEAST_ENTRY: usize = FRONT_SIZE + zone::FIRST_ELEMENT_HOUR;

// An entry, into as many bytes, its fixed rate twice.
#[tactic(auto, using(crate::proofs::Laws::PutConverted::put_fixed))]
fn put_converted(entry: &[u8], to: &mut [u8])
    requires { (length to.old ≡ length entry.now) × (least_entry ≤ length entry.now) }
    ensures { to.new ≡ converted_entry entry.now }
{
    to.copy_from_slice(entry);
    if entry[RATE_CODE] == 0 {
        to[RATE_CODE] = 1;
        to[SECOND_RATE..LEAST_ENTRY].copy_from_slice(&entry[FIRST_RATE..SECOND_RATE]);
    }
}

// The entries, one behind the other, into as many bytes.
fn convert_entries(z: &Zone, entries: &[u8], out: &mut [u8])
    requires few { z.now.count ≤ 24 }
    requires long { AllLong (whole_entries year_interface z.now entries.now) }
    requires fits { length out.old < 2 ^ 64 }
    requires room { length out.old ≡ length (concat (whole_entries year_interface z.now entries.now)) }
    ensures { out.new ≡ concat (map converted_entry (whole_entries year_interface z.now entries.now)) }
{
    let mut temps = [0.0; 121];
    let mut at = 0;
    while let Some(record) = read_record(z, &entries[at..], &mut temps) {
        let next = at + record.length();
        match record {
            ReadRecord::Hour(_) => put_converted(&entries[at..next], &mut out[at..next]),
        }
        at = next;
    }
}

// Whether the version byte of the first record is 1.
fn is_version_1(entries: &[u8]) -> bool
    ensures { result ≡ eqb (version_in entries.now) 1 }
{
    entries.get(VERSION).is_some_and(|version| *version == 1)
}

// Whether the first hour is of version 1. Versions never fall: where the first is of a later one, so are all.
#[tactic(auto, using(crate::proofs::Laws::FirstRecord::no_first))]
fn begins_with_version_1(z: &Zone, entries: &[u8]) -> bool
    requires { z.now.count ≤ 24 }
    ensures { result ≡ first_is_version_1 (whole_entries year_interface z.now entries.now) }
{
    let mut temps = [0.0; 121];
    match read_record(z, entries, &mut temps) {
        None => false,
        Some(ReadRecord::Hour(_)) => is_version_1(entries),
    }
}

// A book that is accepted: its head's length and its values. The zone of its head goes to the one that is lent.
#[tactic(auto, using(crate::proofs::Laws::Convert::accepted_cases))]
fn read_accepted(bytes: &[u8], zone: &mut Zone) -> Result<(usize, BookState), BookError>
    ensures { Accepts bytes.now zone.new result }
{
    let mut start = State {
        nodes: 0,
        temps: [0.0; 121],
    };
    let book = read_book(bytes, zone, &mut start);
    let head = book.head?;
    let values = book.values?;
    Ok((head, values))
}

// A whole book, whose hours with the fixed rate have code 1 and the rate twice, into the first bytes of `out`.
pub fn convert(bytes: &[u8], out: &mut [u8]) -> Result<Converted, ConvertError>
    ensures { (answered result, out.new) ≡ convert_outcome bytes.now out.old }
{
    let mut zone = Zone::none();
    let (head, values) = read_accepted(bytes, &mut zone)?;
    if begins_with_version_1(&zone, &bytes[head..]) {
        return Err(ConvertError::Version1Entry);
    }
    if out.len() < values.used {
        return Err(ConvertError::BufferShort);
    }
    out[..head].copy_from_slice(&bytes[..head]);
    convert_entries(&zone, &bytes[head..], &mut out[head..values.used]);
    Ok(Converted {
        count: values.count,
        used: values.used,
    })
}
