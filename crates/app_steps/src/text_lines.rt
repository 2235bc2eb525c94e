//! Lines of texts.

/// The line of a text with this number, counted from 1, where it is UTF-8.
pub(crate) fn line_at(text: &[u8], line: u64) -> &str {
    let place = line.saturating_sub(1) as usize;
    let bytes = text.split(|byte| *byte == b'\n').nth(place).unwrap_or(&[]);
    str::from_utf8(bytes).unwrap_or("")
}
