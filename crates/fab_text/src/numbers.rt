//! Reads decimal numbers exactly, as a whole number of the requested unit.

ghost use Rattle.std.specs.Prelude.{◌≡◌, ◌++◌, ◌*◌, ◌^◌, ◌<◌, IsTrue, Some, position};
ghost use Rattle.std.specs.Char.{is_ascii_digit};
ghost use Rattle.std.specs.List.{list_all};
ghost use Rattle.std.specs.Option.{SomeIff};
ghost use Rattle.std.specs.Str.Parse.{digits_value, digits_value_after};
ghost use Rattle.fab_text.specs.Decimal.{is_point, whole_part, fraction_part, is_numeral, decimal_of};
ghost use Rattle.fab_text.specs.FaultTexts.{num_fault_text};

use std::fmt;
use thiserror::Error;

/// Why a text is not a number. If several faults apply, the first in this order is returned.
#[derive(Clone, Copy, Debug, PartialEq, Eq, Error)]
pub enum NumFault {
    /// It has no digit, or it has a byte that is not allowed at its place.
    BadDigit,
    /// It has more digits after the point than `places` allows.
    TooManyPlaces,
    /// In the requested unit, the number is above 18,446,744,073,709,551,615.
    TooLarge,
}

impl fmt::Display for NumFault {
    ghost output = { λ fault. Some (num_fault_text fault) };

    fn fmt<W: fmt::Write>(&self, f: &mut fmt::Formatter<W>) -> fmt::Result {
        f.write_str(match self {
            NumFault::BadDigit => "U1 BadDigit",
            NumFault::TooManyPlaces => "U2 TooManyPlaces",
            NumFault::TooLarge => "U3 TooLarge",
        })
    }
}

fn are_digits(text: &[u8]) -> bool
    ensures { result ≡ list_all is_ascii_digit text.now }
{
    text.iter().all(|byte| byte.is_ascii_digit())
}

fn point_place(text: &[u8]) -> Option<usize>
    ensures { result ≡ position is_point text.now }
{
    text.iter().position(|byte| *byte == b'.')
}

/// The parts of a text before and after the point.
fn parts(text: &[u8], places: u32) -> (&[u8], &[u8])
    ensures whole { result.0.now ≡ whole_part text.now places }
    ensures fraction { result.1.now ≡ fraction_part text.now places }
{
    if places == 0 {
        return (text, &[]);
    }
    match point_place(text) {
        Some(i) => (&text[..i], &text[i + 1..]),
        None => (text, &[]),
    }
}

/// The number that has the digits of `value` and then `digits`, or `None` if it does not fit in 64 bits.
fn with_digits(value: u64, digits: &[u8]) -> Option<u64>
    requires { IsTrue (list_all is_ascii_digit digits.now) }
    ensures { SomeIff result (digits_value_after 10 value digits.now < 2 ^ 64)
        (digits_value_after 10 value digits.now) }
{
    let mut total = value;
    for digit in digits {
        total = total
            .checked_mul(10)?
            .checked_add(u64::from(*digit - b'0'))?;
    }
    Some(total)
}

/// `value` times ten to the power of `places`, or `None` if that does not fit in 64 bits.
fn scaled(value: u64, places: u32) -> Option<u64>
    ensures { SomeIff result (value * 10 ^ places < 2 ^ 64) (value * 10 ^ places) }
{
    if value == 0 {
        return Some(0);
    }
    10u64.checked_pow(places)?.checked_mul(value)
}

fn is_numeral(whole: &[u8], fraction: &[u8]) -> bool
    ensures { result ≡ is_numeral (whole.now ++ fraction.now) }
{
    are_digits(whole) && are_digits(fraction) && whole.len() + fraction.len() > 0
}

/// The number with the digits `whole` and then `fraction`, times ten to the power of `rest`; `None` if that does not fit in 64 bits.
fn in_units(whole: &[u8], fraction: &[u8], rest: u32) -> Option<u64>
    requires { IsTrue (is_numeral (whole.now ++ fraction.now)) }
    ensures { SomeIff result (digits_value 10 (whole.now ++ fraction.now) * 10 ^ rest < 2 ^ 64)
        (digits_value 10 (whole.now ++ fraction.now) * 10 ^ rest) }
{
    let value = with_digits(0, whole)?;
    let value = with_digits(value, fraction)?;
    scaled(value, rest)
}

/// Reads the number in `text`, and multiplies it by ten to the power of `places`. The text must have at least one digit. If `places` is
/// above 0, it may have one point, with at most `places` digits after it. No sign, no rounding.
#[tactic(auto, unfolding(crate::specs::Decimal::decimal_of))]
pub fn decimal(text: &[u8], places: u32) -> Result<u64, NumFault>
    ensures { result ≡ decimal_of text.now places }
{
    let (whole, fraction) = parts(text, places);
    if !is_numeral(whole, fraction) {
        return Err(NumFault::BadDigit);
    }
    if fraction.len() > places as usize {
        return Err(NumFault::TooManyPlaces);
    }
    match in_units(whole, fraction, places - fraction.len() as u32) {
        Some(value) => Ok(value),
        None => Err(NumFault::TooLarge),
    }
}
