//! Reading a number.

ghost use Rattle.std.specs.Prelude.{◌≡◌, ◌∷◌, [], ◌≤◌, ◌<◌, ◌^◌, ◌*◌, ◌-◌, IsTrue, drop, min, length, encode_utf8_all};
ghost use Rattle.std.specs.List.{filter};
ghost use Rattle.std.specs.Char.{is_ascii_digit};
ghost use Rattle.std.specs.Str.Parse.{digits_value, digits_value_after};
ghost use Rattle.cv_spec_text.specs.Characters.{begins_with, hyphen};
ghost use Rattle.cv_frac.specs.Bounded.{bounded};
ghost use Rattle.cv_frac.specs.Digits.{no_digits, with_digit as digit_added, with_digits};
ghost use Rattle.cv_frac.specs.Literal.{literal_of, scaled as scaled_ratio, with_exponent as exponent_added, fraction_digits};

use crate::error::FracErr;
use crate::frac::{Frac, LIMIT, lowest, part};
use crate::spelling::{
    digits_length, fraction_length, mantissa_length, number_length, sign_length,
};
use cv_spec_text::Name;

/// More than any power of ten that a text without an exponent can have.
const LARGEST: u128 = 0x8_0000_0000_0000_0000;

/// The digits of a number that count, without zeros at both ends.
#[derive(Clone, Copy)]
struct Digits {
    /// The number that they write.
    number: u128,
    /// How many they are.
    count: u64,
    /// How many zeros follow them.
    zeros: u64,
}

/// The digits with one more, or `None` where more than 36 would count.
fn with_digit(read: Digits, digit: u8) -> Option<Digits>
    requires digit { IsTrue (is_ascii_digit digit) }
    requires small { read.number < 10 ^ read.count }
    requires count { read.count ≤ 36 }
    requires zeros { read.zeros < 2 ^ 63 }
    ensures { result ≡ digit_added read digit }
{
    if digit == b'0' {
        if read.count == 0 {
            return Some(read);
        }
        return Some(Digits {
            number: read.number,
            count: read.count,
            zeros: read.zeros + 1,
        });
    }
    if read.count + read.zeros > 35 {
        return None;
    }
    let shift = 10u128.pow(read.zeros as u32 + 1);
    Some(Digits {
        number: read.number * shift + u128::from(digit - b'0'),
        count: read.count + read.zeros + 1,
        zeros: 0,
    })
}

/// The digits of a text that count, or `None` where more than 36 do.
fn counted(text: &[u8]) -> Option<Digits>
    ensures { result ≡ with_digits no_digits (filter is_ascii_digit text.now) }
{
    let mut read = Digits {
        number: 0,
        count: 0,
        zeros: 0,
    };
    for byte in text {
        if !byte.is_ascii_digit() {
            continue;
        }
        match with_digit(read, *byte) {
            None => return None,
            Some(next) => read = next,
        }
    }
    Some(read)
}

/// A number with a digit behind it, or the largest power where it is beyond that.
fn capped(number: u128, digit: u8) -> u128
    requires digit { IsTrue (is_ascii_digit digit) }
    requires small { number ≤ 2 ^ 67 }
    ensures { result ≡ min (digits_value_after 10 number (digit ∷ [])) (2 ^ 67) }
{
    (number * 10 + u128::from(digit - b'0')).min(LARGEST)
}

/// The number that the digits of a text write, or the largest power where it is beyond that.
fn power(text: &[u8]) -> u128
    ensures { result ≡ min (digits_value 10 (filter is_ascii_digit text.now)) (2 ^ 67) }
{
    let mut number = 0;
    for byte in text {
        if !byte.is_ascii_digit() {
            continue;
        }
        number = capped(number, *byte);
    }
    number
}

/// A number of at most 36 digits, times a power of ten and over another.
fn scaled(negative: bool, number: u128, up: u128, down: u128) -> Result<Frac, FracErr>
    requires { number < 10 ^ 36 }
    ensures { result ≡ bounded (scaled_ratio negative number up down) }
{
    if number == 0 {
        return lowest(negative, 0, 1);
    }
    if down <= up {
        let above = up - down;
        if above >= 19 {
            return Err(FracErr::Range);
        }
        if number >= LIMIT {
            return Err(FracErr::Range);
        }
        lowest(negative, number * 10u128.pow(above as u32), 1)
    } else {
        let below = down - up;
        if below < 55 {
            let first = below.min(38);
            part(
                negative,
                number,
                10u128.pow(first as u32),
                10u128.pow((below - first) as u32),
            )
        } else {
            Err(FracErr::Range)
        }
    }
}

/// Whether the text behind the sign of an exponent begins with a minus.
fn is_negative_exponent(text: &[u8]) -> bool
    ensures { result ≡ begins_with hyphen (drop 1 text.now) }
{
    match text {
        [_, b'-', ..] => true,
        _ => false,
    }
}

/// Whether the text begins with a minus.
fn is_negative(text: &[u8]) -> bool
    ensures { result ≡ begins_with hyphen text.now }
{
    match text {
        [b'-', ..] => true,
        _ => false,
    }
}

/// How many digits stand behind the point.
fn fraction_places(text: &[u8]) -> usize
    ensures { result ≡ fraction_digits text.now }
{
    fraction_length(&text[digits_length(text)..]).saturating_sub(1)
}

/// The fraction of the digits that count, with the places behind the point and the text of the exponent.
fn with_exponent(negative: bool, read: Digits, places: usize, text: &[u8]) -> Result<Frac, FracErr>
    requires { read.number < 10 ^ 36 }
    ensures { result ≡ bounded (exponent_added (begins_with hyphen (drop 1 text.now)) negative (read.number * 10 ^ read.zeros) places (digits_value 10 (filter is_ascii_digit text.now))) }
{
    let size = power(text);
    let zeros = u128::from(read.zeros);
    let places = places as u128;
    if is_negative_exponent(text) {
        scaled(negative, read.number, zeros, places + size)
    } else {
        scaled(negative, read.number, zeros + size, places)
    }
}

impl Frac {
    /// The fraction that a number means, whose spelling is that of the tokeniser.
    pub fn read_decimal(text: &[u8]) -> Result<Frac, FracErr>
        ensures { result ≡ literal_of text.now }
    {
        let length = number_length(text);
        if length == 0 || length != text.len() {
            return Err(FracErr::NotDecimal);
        }
        let unsigned = &text[sign_length(text)..];
        let mantissa = mantissa_length(unsigned);
        match counted(&unsigned[..mantissa]) {
            None => Err(FracErr::Range),
            Some(read) => with_exponent(
                is_negative(text),
                read,
                fraction_places(unsigned),
                &unsigned[mantissa..],
            ),
        }
    }

    /// The fraction that a token's spelling means, read from its bytes.
    pub fn read_spelling(spelling: &Name) -> Result<Frac, FracErr>
        ensures { result ≡ literal_of (encode_utf8_all spelling.now) }
    {
        Frac::read_decimal(spelling.text().as_bytes())
    }
}
