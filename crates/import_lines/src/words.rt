//! The words of a line.
ghost use Rattle.std.specs.Prelude.{◌≡◌, ◌≤◌, ◌∷◌, [], length, MatchOption};
ghost use Rattle.std.specs.List.{prefix_len, position_or_len};
ghost use Rattle.import_lines.specs.Texts.{is_separator, words_of, say_nothing};

/// Whether a byte stands between words: TAB, CR, a blank or a comma.
fn is_separator(byte: u8) -> bool
    ensures { result ≡ is_separator byte }
{
    byte == b'\t' || byte == b'\r' || byte == b' ' || byte == b','
}

/// How many separators stand at the front.
fn separators_length(bytes: &[u8]) -> usize
    ensures exact { result ≡ prefix_len is_separator bytes.now }
    ensures bound { result ≤ length bytes.now }
{
    for (place, byte) in bytes.iter().enumerate() {
        if !is_separator(*byte) {
            return place;
        }
    }
    bytes.len()
}

/// How many bytes stand before the first separator.
fn word_length(bytes: &[u8]) -> usize
    ensures exact { result ≡ position_or_len is_separator bytes.now }
    ensures bound { result ≤ length bytes.now }
{
    for (place, byte) in bytes.iter().enumerate() {
        if is_separator(*byte) {
            return place;
        }
    }
    bytes.len()
}

/// The first word of a text, and what stands after it; none where there is no word.
pub fn next_word(text: &str) -> Option<(&str, &str)>
    ensures { MatchOption result (words_of text.now ≡ []) (λ x. words_of text.now ≡ x.0.now ∷ words_of x.1.now) }
{
    let (_, begun) = text.split_at(separators_length(text.as_bytes()));
    if begun.is_empty() {
        return None;
    }
    Some(begun.split_at(word_length(begun.as_bytes())))
}

/// Whether a line says nothing: it has no words, or its first word begins with `#` or `%`.
pub(crate) fn says_nothing(line: &[u8]) -> bool
    ensures { result ≡ say_nothing (words_of line.now) }
{
    let (_, begun) = line.split_at(separators_length(line));
    match begun.first() {
        Some(byte) => *byte == b'#' || *byte == b'%',
        None => true,
    }
}
