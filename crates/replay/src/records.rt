// The records of a file, each behind its length in four bytes.
use big_endian::read_u32_be;
use std::io;
use std::io::{ErrorKind, Read};

// Room for the longest record.
pub const ROOM: usize = 8192;

// So many are read at most.
pub const MOST_RECORDS: usize = 100_000;

// Whether the whole buffer was read: the file may end before.
fn read_full(file: &mut impl Read, buffer: &mut [u8]) -> io::Result<bool> {
    match file.read_exact(buffer) {
        Ok(()) => Ok(true),
        Err(e) if e.kind() == ErrorKind::UnexpectedEof => Ok(false),
        Err(e) => Err(e),
    }
}

// The next record goes into the buffer's first bytes. They end with the file, before a record that it does not hold whole or that
// is longer than the buffer, and with an empty one.
pub fn next_record<'a>(
    file: &mut impl Read,
    buffer: &'a mut [u8; ROOM],
) -> io::Result<Option<&'a [u8]>> {
    let mut length = [0; 4];
    if !read_full(file, &mut length)? {
        return Ok(None);
    }
    let count = read_u32_be(&length, 0) as usize;
    if count == 0 || ROOM < count {
        return Ok(None);
    }
    let record = &mut buffer[..count];
    if !read_full(file, record)? {
        return Ok(None);
    }
    Ok(Some(record))
}
