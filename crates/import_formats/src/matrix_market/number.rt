//! Whole numbers of a line.
ghost use Rattle.std.specs.Prelude.{◌≡◌};
ghost use Rattle.import_formats.specs.matrix_market.Numbers.{number_of};

use import_lines::all_digits;

/// The number that a word of digits says, where it is below 2 to the power of 64.
pub(crate) fn read_number(word: &str) -> Option<u64>
    ensures { result ≡ number_of word.now }
{
    if !all_digits(word.as_bytes()) {
        return None;
    }
    match word.parse::<u64>() {
        Ok(number) => Some(number),
        Err(_) => None,
    }
}
