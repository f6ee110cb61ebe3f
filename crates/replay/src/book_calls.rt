// The calls on a book, and the converter: of a refused one number and index, and whether it changed nothing; of an accepted one what it
// hands back and writes.
use crate::comparison::Comparison;
use crate::failure::Failure;
use crate::row::Row;
use crate::same::same_book_state;
use big_endian::byte_at;
use book::{BookState, Reply};
use zone::Zone;

// The buffer that a call on a book is lent is the end of a longer one: all of it, where a row gives more room.
const ROOM: usize = 1024;

// So is the converter's output.
const OUTPUT_ROOM: usize = 2048;

// So many bytes of an entry are compared as one value.
const WORD: usize = 4;

// Every byte of a buffer before a call.
pub const FILLED: u8 = 85;

pub fn is_filled(buffer: &[u8]) -> bool {
    buffer.iter().all(|b| *b == FILLED)
}

// A refused call hands back the values that it was given, and leaves the buffer as it is.
pub fn accepted(given: &BookState, reply: &Reply, buffer: &[u8]) -> Result<BookState, Failure> {
    match reply.answer {
        Ok(()) => Ok(reply.values),
        Err(refusal) if same_book_state(given, &reply.values) && is_filled(buffer) => {
            Err(Failure::from(refusal))
        }
        Err(_) => Err(Failure::Changed),
    }
}

pub fn begin(row: &Row<'_>, seen: &mut Comparison<'_>) -> Result<(), Failure> {
    let given = row.book_state();
    let mut buffer = [FILLED; ROOM];
    let from = ROOM.saturating_sub(row.room);
    let reply = book::begin(given, row.head, &mut buffer[from..]);
    seen.book_state(&accepted(&given, &reply, &buffer)?);
    Ok(())
}

// Of the bytes as many, from a place on that may lie before the first of them. Where there is none a byte is 0.
fn bytes_from(bytes: &[u8; ROOM], place: usize) -> [u8; ROOM] {
    let mut taken = [0; ROOM];
    for (i, byte) in taken.iter_mut().enumerate() {
        *byte = byte_at(bytes, place.wrapping_add(i));
    }
    taken
}

// With the whole words of the entry that it writes. What a row gives as more room than there is, the entry is looked for before its place.
pub fn append(row: &Row<'_>, zone: &Zone, seen: &mut Comparison<'_>) -> Result<(), Failure> {
    let given = row.book_state();
    let mut buffer = [FILLED; ROOM];
    let from = ROOM.saturating_sub(row.room);
    let reply = book::append(
        zone,
        given,
        row.hour.conditions,
        row.version,
        row.hour.limits(),
        &mut buffer[from..],
    );
    let after = accepted(&given, &reply, &buffer)?;
    seen.book_state(&after);
    let place = ROOM.wrapping_sub(row.room).wrapping_add(given.used);
    let length = after.used.saturating_sub(given.used) / WORD * WORD;
    seen.words(bytes_from(&buffer, place).get(..length).unwrap_or(&[]));
    Ok(())
}

// A refused call leaves the output as it is, an accepted one the bytes behind the book.
pub fn convert(row: &Row<'_>, seen: &mut Comparison<'_>) -> Result<(), Failure> {
    let mut buffer = [FILLED; OUTPUT_ROOM];
    let from = OUTPUT_ROOM.saturating_sub(row.room);
    let answer = tools::convert(row.head, &mut buffer[from..]);
    match answer {
        Ok(converted) => {
            let used = from.saturating_add(converted.used);
            if !is_filled(buffer.get(used..).unwrap_or(&[])) {
                return Err(Failure::Changed);
            }
            seen.compare_all();
            seen.value(converted.count as u64);
            seen.value(converted.used as u64);
            seen.words(buffer.get(from..used).unwrap_or(&[]));
            Ok(())
        }
        Err(error) if is_filled(&buffer) => Err(Failure::from(error)),
        Err(_) => Err(Failure::Changed),
    }
}

pub fn take_up(row: &Row<'_>, seen: &mut Comparison<'_>) -> Result<(), Failure> {
    let given = row.book_state();
    let reply = book::take_up(given, row.head);
    seen.book_state(&accepted(&given, &reply, &[])?);
    Ok(())
}
