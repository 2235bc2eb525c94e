//! Numbers in decimal digits, and fixed bytes, at the front of a text.
ghost use Rattle.std.specs.Prelude.{◌≡◌, ◌≢◌, ◌<◌, ◌++◌, ◌^◌, ℕ, List, MatchOption, length};
ghost use Rattle.std.specs.Char.{is_ascii_digit};
ghost use Rattle.std.specs.Fmt.{decimal};
ghost use Rattle.std.specs.List.{prefix_len};
ghost use Rattle.std.specs.Option.{option_map};
ghost use Rattle.rule_lang.specs.Tokens.{IsSpan};
ghost use Rattle.report_text.specs.Digits.{IsDigits, begins_zero};
ghost use Rattle.report_text.specs.Front.{IsFront, Ends};

use std::str;

/// How many digits stand at the front.
fn digits_length(bytes: &[u8]) -> usize
    ensures { result ≡ prefix_len is_ascii_digit bytes.now }
{
    for (place, byte) in bytes.iter().enumerate() {
        if !byte.is_ascii_digit() {
            return place;
        }
    }
    bytes.len()
}

/// The digits at the front, and what stands after them.
fn split_digits(bytes: &[u8]) -> (&[u8], &[u8])
    ensures { IsSpan is_ascii_digit bytes.now result.0.now result.1.now }
{
    bytes.split_at(digits_length(bytes))
}

/// Whether a zero leads further digits.
fn has_needless_zero(digits: &[u8]) -> bool
    ensures { result ≡ begins_zero digits.now }
{
    digits.len() > 1 && digits[0] == b'0'
}

/// Digits as text.
fn text(digits: &[u8]) -> &str
    requires digits { IsDigits digits.now }
    ensures same { result.now ≡ digits.now }
{
    match str::from_utf8(digits) {
        Ok(text) => text,
        Err(_) => "",
    }
}

/// The number whose spelling the digits are.
fn spelled(digits: &[u8]) -> Option<u32>
    requires digits { IsDigits digits.now }
    ensures number { MatchOption result ((n : ℕ) → n < 2 ^ 32 → digits.now ≢ decimal n) (λ n. digits.now ≡ decimal n) }
{
    if has_needless_zero(digits) {
        return None;
    }
    match text(digits).parse::<u32>() {
        Ok(value) => Some(value),
        Err(_) => None,
    }
}

/// The number from 0 to 4,294,967,295 in decimal digits at the front of the bytes, and what stands after its digits.
///
/// None where no digit stands there, where a zero leads further digits, or where all the digits at the front make a
/// greater number. Nothing else is taken as part of a number: no sign, no space, no underscore.
pub fn read_number(bytes: &[u8]) -> Option<(u32, &[u8])>
    ensures { IsFront decimal (λ n. n < 2 ^ 32) Ends bytes.now (option_map (λ x. (x.0, x.1.now)) result) }
{
    let (digits, rest) = split_digits(bytes);
    let value = spelled(digits)?;
    Some((value, rest))
}

/// What stands after this word, where the bytes begin with it; none where they do not.
pub fn behind<'a>(word: &[u8], bytes: &'a [u8]) -> Option<&'a [u8]>
    ensures { MatchOption result ((rest : List ℕ) → bytes.now ≢ word.now ++ rest) (λ rest. bytes.now ≡ word.now ++ rest.now) }
{
    bytes.strip_prefix(word)
}
