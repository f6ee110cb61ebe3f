// A record, read from its front: past its end every byte is 0, and a part is empty where it is not all there.
use big_endian::{byte_at, read_f64_be, read_u16_be, read_u32_be, read_u64_be};

#[derive(Drop)]
pub struct Record<'a> {
    rest: &'a [u8],
}

impl<'a> Record<'a> {
    pub fn new(bytes: &'a [u8]) -> Self {
        Record { rest: bytes }
    }

    // What there is of the next `count` bytes.
    fn take_present(&mut self, count: usize) -> &'a [u8] {
        let (taken, rest) = self.rest.split_at(count.min(self.rest.len()));
        self.rest = rest;
        taken
    }

    pub fn take(&mut self, count: usize) -> &'a [u8] {
        let taken = self.take_present(count);
        if taken.len() == count { taken } else { &[] }
    }

    // Five functions of a line each: one for all would be handed what it reads by.
    pub fn take_u8(&mut self) -> u8 {
        byte_at(self.take_present(1), 0)
    }

    pub fn take_u16(&mut self) -> u16 {
        read_u16_be(self.take_present(2), 0)
    }

    pub fn take_u32(&mut self) -> u32 {
        read_u32_be(self.take_present(4), 0)
    }

    pub fn take_u64(&mut self) -> u64 {
        read_u64_be(self.take_present(8), 0)
    }

    pub fn take_f64(&mut self) -> f64 {
        read_f64_be(self.take_present(8), 0)
    }

    // Bytes behind their count in two bytes.
    pub fn take_counted(&mut self) -> &'a [u8] {
        let count = self.take_u16();
        self.take(usize::from(count))
    }

    // Floats or numbers of eight bytes behind their count: the count, and what there is of them.
    pub fn take_values(&mut self) -> (usize, &'a [u8]) {
        let count = usize::from(self.take_u16());
        (count, self.take_present(8 * count))
    }

    // What is left of the record.
    pub fn rest(self) -> &'a [u8] {
        self.rest
    }
}
