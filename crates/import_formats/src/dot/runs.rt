//! How many bytes of one sort stand at the front.
ghost use Rattle.std.specs.Prelude.{◌≡◌, ◌≤◌, false, length};
ghost use Rattle.std.specs.List.{prefix_len, count_by};
ghost use Rattle.std.specs.Char.{is_ascii_digit};
ghost use Rattle.import_formats.specs.dot.Bytes.{is_word_byte, is_numeral_byte, is_point};
ghost use Rattle.import_formats.specs.dot.Runs.{is_numeral, quote_place, bracket_place, slash_place};

/// Whether a byte stands in words: a letter, a digit, `_`, or a byte of 128 or more.
pub(crate) fn is_word_byte(byte: u8) -> bool
    ensures { result ≡ is_word_byte byte }
{
    byte.is_ascii_alphanumeric() || byte == b'_' || byte >= 128
}

/// How many bytes of a word stand at the front.
pub(crate) fn word_length(bytes: &[u8]) -> usize
    ensures exact { result ≡ prefix_len is_word_byte bytes.now }
    ensures bound { result ≤ length bytes.now }
{
    for (place, byte) in bytes.iter().enumerate() {
        if !is_word_byte(*byte) {
            return place;
        }
    }
    bytes.len()
}

/// How many bytes of a word, or points, stand at the front.
pub(crate) fn numeral_length(bytes: &[u8]) -> usize
    ensures exact { result ≡ prefix_len is_numeral_byte bytes.now }
    ensures bound { result ≤ length bytes.now }
{
    for (place, byte) in bytes.iter().enumerate() {
        if !(is_word_byte(*byte) || *byte == b'.') {
            return place;
        }
    }
    bytes.len()
}

/// How many digits there are.
fn digits(bytes: &[u8]) -> usize
    ensures exact { result ≡ count_by is_ascii_digit bytes.now }
    ensures bound { result ≤ length bytes.now }
{
    let mut count: usize = 0;
    for byte in bytes {
        if byte.is_ascii_digit() {
            count += 1;
        }
    }
    count
}

/// How many points there are.
fn points(bytes: &[u8]) -> usize
    ensures exact { result ≡ count_by is_point bytes.now }
    ensures bound { result ≤ length bytes.now }
{
    let mut count: usize = 0;
    for byte in bytes {
        if *byte == b'.' {
            count += 1;
        }
    }
    count
}

/// Whether the bytes are digits with a point among them or without, one digit at least.
pub(crate) fn is_numeral(bytes: &[u8]) -> bool
    ensures { result ≡ is_numeral bytes.now }
{
    let digits = digits(bytes);
    let points = points(bytes);
    digits > 0 && points <= 1 && digits == bytes.len() - points
}

/// How many bytes stand before the quote that ends a string.
pub(crate) fn quote_place(bytes: &[u8]) -> usize
    ensures exact { result ≡ quote_place false bytes.now }
    ensures bound { result ≤ length bytes.now }
{
    let mut escaped = false;
    for (place, byte) in bytes.iter().enumerate() {
        if *byte == b'"' && !escaped {
            return place;
        }
        escaped = *byte == b'\\' && !escaped;
    }
    bytes.len()
}

/// How many bytes stand before the angle bracket that ends a string.
pub(crate) fn bracket_place(bytes: &[u8]) -> usize
    ensures exact { result ≡ bracket_place 0 bytes.now }
    ensures bound { result ≤ length bytes.now }
{
    let mut depth: usize = 0;
    for (place, byte) in bytes.iter().enumerate() {
        if *byte == b'>' {
            if depth == 0 {
                return place;
            }
            depth -= 1;
        } else if *byte == b'<' {
            depth += 1;
        }
    }
    bytes.len()
}

/// How many bytes stand before the slash that ends a comment.
pub(crate) fn slash_place(bytes: &[u8]) -> usize
    ensures exact { result ≡ slash_place false bytes.now }
    ensures bound { result ≤ length bytes.now }
{
    let mut starred = false;
    for (place, byte) in bytes.iter().enumerate() {
        if *byte == b'/' && starred {
            return place;
        }
        starred = *byte == b'*';
    }
    bytes.len()
}
