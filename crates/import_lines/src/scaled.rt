//! The weight that a word says with a factor.
ghost use Rattle.std.specs.Prelude.{◌≡◌, ◌++◌, ◌<◌, ◌+◌, ◌*◌, ◌^◌, true, min, nat_le, Err, SomeIff, if◌then◌else◌};
ghost use Rattle.std.specs.Char.{is_ascii_digit, digit_value};
ghost use Rattle.std.specs.Str.{all_ascii_digits};
ghost use Rattle.std.specs.Str.Parse.{digits_value, digits_value_after};
ghost use Rattle.import_lines.specs.declared.weight_fault.WeightFault.TheVariants.{TooManyDigits};
ghost use Rattle.import_lines.specs.Weights.{is_number, behind_sign, is_lowering, raise_of, lower_of, digits_of, raised_of, lowered_of, weight_near, weight_of};

use crate::cut_at;
use crate::number::{is_negative, is_number, mark_place, point_place};
use crate::quotient::shifted;
use crate::weight::Weight;
use crate::weight_fault::WeightFault;

/// Exponents beyond this one do not change a weight: it is 0 or too large already.
const MOST_POWER: u128 = 100_000_000_000_000_000_000;

/// The number that a digit says.
fn digit(byte: u8) -> u8
    requires { is_ascii_digit byte ≡ true }
    ensures value { result ≡ digit_value byte }
    ensures bound { result < 10 }
{
    byte - b'0'
}

/// The number that digits say after those of another number, where it is below 2 to the power of 64.
fn value_behind(before: u64, digits: &[u8]) -> Option<u64>
    requires { all_ascii_digits digits.now ≡ true }
    ensures { SomeIff result (digits_value_after 10 before digits.now < 2 ^ 64) (digits_value_after 10 before digits.now) }
{
    let mut value = before;
    for byte in digits {
        let longer = value as u128 * 10 + digit(*byte) as u128;
        if longer > u64::MAX as u128 {
            return None;
        }
        value = longer as u64;
    }
    Some(value)
}

/// The number that two runs of digits together say, where it is below 2 to the power of 64.
fn digits_together(front: &[u8], back: &[u8]) -> Option<u64>
    requires front { all_ascii_digits front.now ≡ true }
    requires back { all_ascii_digits back.now ≡ true }
    ensures { SomeIff result (digits_value 10 (front.now ++ back.now) < 2 ^ 64) (digits_value 10 (front.now ++ back.now)) }
{
    match value_behind(0, front) {
        Some(value) => value_behind(value, back),
        None => None,
    }
}

/// The number that digits say, or `MOST_POWER` where it is more.
fn power(digits: &[u8]) -> u128
    requires { all_ascii_digits digits.now ≡ true }
    ensures { result ≡ min MOST_POWER (digits_value 10 digits.now) }
{
    let mut value = 0u128;
    for byte in digits {
        value = (value * 10 + digit(*byte) as u128).min(MOST_POWER);
    }
    value
}

/// Whether an exponent has a minus sign, and what stands after its sign.
fn split_sign(exponent: &[u8]) -> (bool, &[u8])
    ensures lowering { result.0 ≡ is_lowering exponent.now }
    ensures behind { result.1.now ≡ behind_sign exponent.now }
{
    match exponent {
        [b'-', digits @ ..] => (true, digits),
        [b'+', digits @ ..] => (false, digits),
        _ => (false, exponent),
    }
}

/// The weight nearest to a number with so many places after its point, and with this exponent.
fn with_exponent(number: u128, places: usize, exponent: &[u8]) -> Result<Weight, WeightFault>
    requires small { number < 2 ^ 96 }
    requires digits { all_ascii_digits (behind_sign exponent.now) ≡ true }
    ensures { result ≡ weight_near (number * 10 ^ raise_of exponent.now) (10 ^ (places + lower_of exponent.now)) }
{
    let (lowering, digits) = split_sign(exponent);
    let power = power(digits);
    if lowering {
        shifted(number, 0, places as u128 + power)
    } else {
        shifted(number, power, places as u128)
    }
}

/// The weight nearest to a number times a factor.
fn number_weight(number: &[u8], factor: u32) -> Result<Weight, WeightFault>
    requires { is_number number.now ≡ true }
    ensures { result ≡ (if nat_le (2 ^ 64) (digits_of number.now) then Err TooManyDigits else weight_near (factor * raised_of number.now) (lowered_of number.now)) }
{
    let (mantissa, exponent) = cut_at(number, mark_place(number));
    let (whole, fraction) = cut_at(mantissa, point_place(mantissa));
    match digits_together(whole, fraction) {
        Some(digits) => with_exponent(factor as u128 * digits as u128, fraction.len(), exponent),
        None => Err(WeightFault::TooManyDigits),
    }
}

/// The weight that a word says with a factor.
pub(crate) fn scaled_weight(word: &str, factor: u32) -> Result<Weight, WeightFault>
    ensures { result ≡ weight_of (Some factor) word.now }
{
    let bytes = word.as_bytes();
    if is_negative(bytes) {
        return Err(WeightFault::Negative);
    }
    if !is_number(bytes) {
        return Err(WeightFault::BadWeight);
    }
    number_weight(bytes, factor)
}
