// The chosen line of a file, and a field of a line.
ghost use Rattle.std.specs.Prelude.{◌≡◌, ◌<◌, ◌==◌, [], drop, MatchOption};
ghost use Rattle.std.specs.List.{before_first};
ghost use Rattle.std.specs.Option.{option_copied};
ghost use Rattle.weather.specs.Numbers.{line_feed};
ghost use Rattle.weather.specs.Split.{split};
ghost use Rattle.weather.specs.Lines.{without_return, line_of, field_of};

use crate::numbers::{CARRIAGE_RETURN, COMMA, HEADER_LINES, LINE_FEED};

fn without_return(line: &[u8]) -> &[u8]
    ensures { result.now ≡ without_return line.now }
{
    line.strip_suffix(&[CARRIAGE_RETURN]).unwrap_or(line)
}

// What stands before the first line feed, or all where there is none.
fn first_line(bytes: &[u8]) -> &[u8]
    ensures { result.now ≡ before_first (λ b. b == line_feed) bytes.now }
{
    bytes
        .split(|byte| *byte == LINE_FEED)
        .next()
        .unwrap_or(bytes)
}

// What stands behind so many lines, each with its line feed; none where there are fewer.
#[tactic(auto, using(crate::proofs::Laws::Lines::behind_feed, crate::proofs::Laws::Lines::behind_other))]
fn behind_lines(file: &[u8], count: usize) -> Option<&[u8]>
    ensures { MatchOption result (drop count (split line_feed file.now) ≡ [])
        (λ rest. split line_feed rest.now ≡ drop count (split line_feed file.now)) }
{
    if count == 0 {
        return Some(file);
    }
    let mut left = count;
    for (place, byte) in file.iter().enumerate() {
        if *byte == LINE_FEED {
            left -= 1;
            if left == 0 {
                return Some(&file[place + 1..]);
            }
        }
    }
    None
}

// A line, counted from 1 behind the headers. What stands behind the line is not gone over.
pub fn find_line(file: &[u8], line: u64) -> Option<&[u8]>
    ensures { option_copied result ≡ line_of file.now line }
{
    let before = line.checked_sub(1)?;
    let behind_headers = behind_lines(file, HEADER_LINES)?;
    let found = behind_lines(behind_headers, before as usize)?;
    let first = first_line(found);
    // A line feed stands behind each but the last.
    match found.get(first.len()) {
        Some(_) => Some(without_return(first)),
        None => Some(found),
    }
}

// A field, counted from 1.
pub fn find_field(line: &[u8], place: usize) -> Option<&[u8]>
    requires { 0 < place }
    ensures { option_copied result ≡ field_of line.now place }
{
    line.split(|byte| *byte == COMMA).nth(place - 1)
}
