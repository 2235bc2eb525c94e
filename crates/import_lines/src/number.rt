//! Numbers as words: what they look like.
ghost use Rattle.std.specs.Prelude.{◌≡◌, ◌++◌};
ghost use Rattle.std.specs.List.{position_or_len};
ghost use Rattle.std.specs.Str.{all_ascii_digits};
ghost use Rattle.import_lines.specs.Weights.{is_point, is_exponent_mark, is_whole, is_mantissa, is_exponent, is_number, is_negative};

use crate::cut_at;

/// Whether all bytes are digits.
pub fn all_digits(bytes: &[u8]) -> bool
    ensures { result ≡ all_ascii_digits bytes.now }
{
    for byte in bytes {
        if !byte.is_ascii_digit() {
            return false;
        }
    }
    true
}

/// Whether the bytes are a whole number: digits alone, one or more.
pub(crate) fn is_whole(bytes: &[u8]) -> bool
    ensures { result ≡ is_whole bytes.now }
{
    !bytes.is_empty() && all_digits(bytes)
}

/// How many bytes stand before the first point.
pub(crate) fn point_place(bytes: &[u8]) -> usize
    ensures { result ≡ position_or_len is_point bytes.now }
{
    for (place, byte) in bytes.iter().enumerate() {
        if *byte == b'.' {
            return place;
        }
    }
    bytes.len()
}

/// How many bytes stand before the first `e` or `E`.
pub(crate) fn mark_place(bytes: &[u8]) -> usize
    ensures { result ≡ position_or_len is_exponent_mark bytes.now }
{
    for (place, byte) in bytes.iter().enumerate() {
        if *byte == b'e' || *byte == b'E' {
            return place;
        }
    }
    bytes.len()
}

/// Whether two runs of bytes together are a whole number.
fn is_whole_together(front: &[u8], back: &[u8]) -> bool
    ensures { result ≡ is_whole (front.now ++ back.now) }
{
    if front.is_empty() {
        return is_whole(back);
    }
    all_digits(front) && all_digits(back)
}

/// Whether the bytes are digits with a point among them or without, one digit at least.
fn is_mantissa(bytes: &[u8]) -> bool
    ensures { result ≡ is_mantissa bytes.now }
{
    let (whole, fraction) = cut_at(bytes, point_place(bytes));
    is_whole_together(whole, fraction)
}

/// Whether the bytes are a whole number with a sign before it or without.
fn is_exponent(bytes: &[u8]) -> bool
    ensures { result ≡ is_exponent bytes.now }
{
    match bytes {
        [b'+' | b'-', digits @ ..] => is_whole(digits),
        _ => is_whole(bytes),
    }
}

/// Whether the bytes are a number, whole or decimal.
pub(crate) fn is_number(bytes: &[u8]) -> bool
    ensures { result ≡ is_number bytes.now }
{
    let place = mark_place(bytes);
    let (mantissa, exponent) = cut_at(bytes, place);
    is_mantissa(mantissa) && (place == bytes.len() || is_exponent(exponent))
}

/// Whether the bytes are a minus sign before a number.
pub(crate) fn is_negative(bytes: &[u8]) -> bool
    ensures { result ≡ is_negative bytes.now }
{
    match bytes {
        [b'-', number @ ..] => is_number(number),
        _ => false,
    }
}
