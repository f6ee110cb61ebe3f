// A weather file of a few bytes, put together of its parts.
use big_endian::put_bytes;

const ROOM: usize = 160;

#[derive(Clone, Copy)]
pub struct File {
    bytes: [u8; ROOM],
    length: usize,
}

impl File {
    pub fn of(parts: &[&str]) -> File {
        let mut bytes = [0; ROOM];
        let mut length: usize = 0;
        for part in parts {
            put_bytes(&mut bytes, length, part.as_bytes());
            length = length.saturating_add(part.len());
        }
        File { bytes, length }
    }

    // Eight empty headers, then a line with these fields 7, 15 and 16.
    pub fn of_fields(fields: [&str; 3]) -> File {
        let [dry_bulb, direct_normal, diffuse_horizontal] = fields;
        File::of(&[
            "\n\n\n\n\n\n\n\n1999,1,1,1,60,?9,",
            dry_bulb,
            ",,,,,,,,",
            direct_normal,
            ",",
            diffuse_horizontal,
            "\n",
        ])
    }

    pub fn bytes(&self) -> &[u8] {
        self.bytes.get(..self.length).unwrap_or(&self.bytes)
    }
}
