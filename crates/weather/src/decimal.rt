// A written decimal.
ghost use Rattle.std.specs.Prelude.{◌≡◌, true, ◌+◌, ◌*◌, ◌^◌, ◌<◌, length, Some};
ghost use Rattle.weather.specs.Decimal.{all_digits, is_digits, number};
ghost use Rattle.weather.specs.Numbers.{most_digits};
ghost use Rattle.weather.specs.Inner.Decimals.{Reads, short, of_digits, short_unsigned, short_decimal};

use crate::fraction::Fraction;
use crate::numbers::{DIGIT_0, MINUS_SIGN, MOST_DIGITS, POINT};

// One digit or more.
fn is_digits(bytes: &[u8]) -> bool
    ensures { result ≡ is_digits bytes.now }
{
    !bytes.is_empty() && bytes.iter().all(|byte| byte.is_ascii_digit())
}

// The number that these digits write behind those of `before`.
fn append_digits(before: u64, digits: &[u8]) -> u64
    requires are_digits { all_digits digits.now ≡ true }
    requires few { before * 10 ^ length digits.now + number digits.now < 10 ^ most_digits }
    ensures { result ≡ before * 10 ^ length digits.now + number digits.now }
{
    let mut n = before;
    for digit in digits {
        n = 10 * n + u64::from(*digit - DIGIT_0);
    }
    n
}

// The decimal of these digits before and after the point, where they are at most 12.
fn of_digits(minus: bool, whole: &[u8], fraction: &[u8]) -> Option<Fraction>
    requires whole_digits { all_digits whole.now ≡ true }
    requires fraction_digits { all_digits fraction.now ≡ true }
    ensures { Reads (short (Some (of_digits minus whole.now fraction.now))) result }
{
    let places = fraction.len();
    if MOST_DIGITS < whole.len() + places {
        return None;
    }
    let number = append_digits(append_digits(0, whole), fraction);
    let power = 10_u64.pow(places as u32);
    Some(Fraction {
        minus,
        number,
        power,
    })
}

// Digits, and perhaps a point with digits after it.
fn read_unsigned(minus: bool, bytes: &[u8]) -> Option<Fraction>
    ensures { Reads (short_unsigned minus bytes.now) result }
{
    let mut parts = bytes.split(|byte| *byte == POINT);
    match (parts.next(), parts.next(), parts.next()) {
        (Some(whole), None, _) if is_digits(whole) => of_digits(minus, whole, &[]),
        (Some(whole), Some(fraction), None) if is_digits(whole) && is_digits(fraction) => {
            of_digits(minus, whole, fraction)
        }
        _ => None,
    }
}

// A decimal of at most 12 digits.
#[tactic(auto, using(crate::proofs::Laws::Unsigned::minus_read, crate::proofs::Laws::Unsigned::plain_read))]
pub fn read_decimal(field: &[u8]) -> Option<Fraction>
    ensures { Reads (short_decimal field.now) result }
{
    match field.strip_prefix(&[MINUS_SIGN]) {
        Some(unsigned) => read_unsigned(true, unsigned),
        None => read_unsigned(false, field),
    }
}
