// A book converted, and what the output holds.
use crate::chilled_ceiling::differing::differing;
use crate::fixed_rate::stored::ROOM;
use crate::refusal::Refusal;
use crate::replies::print_outcome;
use crate::table::row;
use std::io;
use tools::Converted;

// What stands in the output before.
const BEFORE: u8 = 170;

#[derive(Clone, Copy)]
pub struct Conversion {
    pub answer: Result<Converted, Refusal>,
    output: [u8; ROOM],
}

impl Conversion {
    // Into so many bytes.
    pub fn into(bytes: &[u8], length: usize) -> Conversion {
        let mut output = [BEFORE; ROOM];
        let length = length.min(ROOM);
        let answer = tools::convert(bytes, &mut output[..length]).map_err(Refusal::from);
        Conversion { answer, output }
    }

    pub fn of(bytes: &[u8]) -> Conversion {
        Conversion::into(bytes, ROOM)
    }

    fn used(&self) -> usize {
        self.answer.map_or(0, |converted| converted.used)
    }

    pub fn bytes(&self) -> &[u8] {
        self.output.get(..self.used()).unwrap_or(&[])
    }

    // Behind what is used; of a refused conversion anywhere.
    fn changed_behind(&self) -> usize {
        let behind = self.output.get(self.used()..).unwrap_or(&[]);
        differing(behind, &[BEFORE; ROOM])
    }

    pub fn print_accepted(
        &self,
        rt: &impl Print,
        entries: usize,
        used: usize,
        expected: &[u8],
    ) -> io::Result<()> {
        print_outcome(rt, &self.answer, Ok(()))?;
        let count = self.answer.map_or(0, |converted| converted.count);
        row(rt, "  entries", count, entries)?;
        row(rt, "  used bytes", self.used(), used)?;
        let unlike = differing(self.bytes(), expected);
        row(rt, "  bytes unlike those of appends", unlike, 0)?;
        row(rt, "  bytes behind changed", self.changed_behind(), 0)
    }

    pub fn print_refused(&self, rt: &impl Print, refusal: Refusal) -> io::Result<()> {
        print_outcome(rt, &self.answer, Err(refusal))?;
        row(
            rt,
            "  bytes of the output changed",
            self.changed_behind(),
            0,
        )
    }
}
