// House P heated to 21 with a fixed rate of 0, as its entry was written in each version: byte by byte by hand, taken up and cut. What the hour ends with is
// worked out at house_p/limited.rt.
use crate::bytes::CONDITIONS;
use crate::fixed_rate::stored::CONDITIONS as CONDITIONS_FROM;
use crate::house_p::house::{ENTRY, HEAD, HOUSE_P, hour_of};
use crate::replies::{Counts, taken_up};
use crate::table::decimals;
use big_endian::{put_bytes, write_f64s_be};
use std::io;

// An entry of version 3, and the room for one behind the head.
const LONG_ENTRY: usize = ENTRY + 16;

const ROOM: usize = HEAD + LONG_ENTRY;

// The length that an entry begins with, the limits of version 3, and the temperatures of outer and inner surface and of the air after the hour.
#[derive(Clone, Copy)]
struct Written<'a> {
    title: &'a str,
    version: u8,
    length: u8,
    limits: &'a [f64],
    outer: f64,
    inner: f64,
    air: f64,
}

// 144 W for the degree, of which a limit of 72 W leaves half.
const BY_HAND: [Written<'static>; 3] = [
    Written {
        title: "House P to 21 with a fixed rate of 0, its entry by hand, version 1",
        version: 1,
        length: 212,
        limits: &[],
        outer: 20.3125,
        inner: 20.625,
        air: 21.0,
    },
    Written {
        title: "version 2",
        version: 2,
        length: 212,
        limits: &[],
        outer: 20.3125,
        inner: 20.625,
        air: 21.0,
    },
    Written {
        title: "version 3, heating limit 72 W: it holds",
        version: 3,
        length: 228,
        limits: &[72.0, 0.0],
        outer: 20.15625,
        inner: 20.3125,
        air: 20.5,
    },
];

impl Written<'_> {
    // Behind the head, and behind the four bytes of the length.
    fn used(&self) -> usize {
        HEAD + 4 + usize::from(self.length)
    }

    // Heating 0.144 kWh, no cooling, rate 0, no trigger.
    fn book(&self) -> [u8; ROOM] {
        let mut b = [0; ROOM];
        put_bytes(&mut b, 0, &HOUSE_P.head());
        put_bytes(&mut b, HEAD, &[0, 0, 0, self.length, self.version]);
        let conditions = hour_of(21.0, 24.0).with_fixed_rate(0.0).conditions();
        put_bytes(&mut b, HEAD + CONDITIONS_FROM, &conditions);
        let limits = HEAD + CONDITIONS_FROM + CONDITIONS;
        write_f64s_be(&mut b, limits, self.limits);
        let results = self.used().saturating_sub(57);
        write_f64s_be(&mut b, results, &[144.0 / 1000.0, 0.0, 0.0]);
        let temperatures = results.saturating_add(33);
        write_f64s_be(&mut b, temperatures, &[self.outer, self.inner, self.air]);
        b
    }

    fn print(&self, rt: &impl Print) -> io::Result<()> {
        let b = self.book();
        let used = self.used();
        let whole = b.get(..used).unwrap_or(&[]);
        let cut = b.get(..used.saturating_sub(1)).unwrap_or(&[]);
        println!(rt; "{}", self.title)?;
        let one = Counts {
            entries: 1,
            used,
            last_version: u64::from(self.version),
        };
        let none = Counts {
            entries: 0,
            used: HEAD,
            last_version: 1,
        };
        let reply = taken_up(whole);
        one.accepted().print(rt, reply)?;
        let temps = reply.values.state.temps;
        decimals(rt, "  external surface", temps[0], self.outer)?;
        decimals(rt, "  internal surface", temps[1], self.inner)?;
        decimals(rt, "  air", temps[2], self.air)?;
        println!(rt; "without its last byte")?;
        none.accepted().print(rt, taken_up(cut))
    }
}

pub fn print_by_hand(rt: &impl Print) -> io::Result<()> {
    for written in BY_HAND {
        written.print(rt)?;
    }
    Ok(())
}
