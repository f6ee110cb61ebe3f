// Where the first record of a rest of the book ends, and all its records; what a record is. Nothing else says it.
ghost use Rattle.std.specs.Prelude.{◌≡◌, length};
ghost use Rattle.std.specs.Iterator.{at_most};
ghost use Rattle.book.specs.Year.{entry_length};
ghost use Rattle.book.specs.Inner.Record.{record_length, length_of, NextRecord};

use crate::entry::EntryLayout;
use crate::layout::{FRONT_SIZE, LENGTH_SIZE};
use zone::hour_version;

// The length of the whole record with which a rest of the book begins, by its version byte; none where nothing of it counts. A rest with a version byte that
// no hour has counts as a whole record, which no hour gives.
pub fn record_in(layout: &EntryLayout<'_>, rest: &[u8]) -> Option<usize>
    ensures { record_length result ≡ entry_length layout.now.zone.now rest.now }
{
    if rest.len() < FRONT_SIZE {
        return None;
    }
    let version = u64::from(rest[LENGTH_SIZE]);
    if hour_version(version) {
        let length = layout.whole_length(version);
        if rest.len() < length {
            return None;
        }
        return Some(length);
    }
    Some(rest.len())
}

// What a record of a book that was taken up is, and its length. Each of them is an hour's entry; who goes through a book says what it does with each kind.
#[derive(Clone, Copy)]
pub enum ReadRecord {
    Hour(usize),
}

impl ReadRecord {
    pub fn length(self) -> usize
        ensures { result ≡ length_of self }
    {
        match self {
            ReadRecord::Hour(length) => length,
        }
    }
}

// The whole records of a rest of the book, one behind the other; a rest that counts for none ends them.
#[derive(Drop)]
pub struct Records<'z, 'a> {
    pub layout: EntryLayout<'z>,
    pub rest: &'a [u8],
}

impl<'z, 'a> Iterator for Records<'z, 'a> {
    type Item = &'a [u8];

    ghost next_gives = { NextRecord };

    ghost remaining = { λ s. at_most (length s.rest.now) };

    fn next(&mut self) -> Option<&'a [u8]> {
        let length = record_in(&self.layout, self.rest)?;
        let (record, rest) = self.rest.split_at(length);
        self.rest = rest;
        Some(record)
    }
}
