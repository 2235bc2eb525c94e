//! The first line, which says what stands in the others.
ghost use Rattle.std.specs.Prelude.{◌≡◌, ◌∷◌, [], MatchOption, Err};
ghost use Rattle.import_lines.specs.Texts.{words_of};
ghost use Rattle.import_formats.specs.matrix_market.Headers.{says, values_in, direction_in, header_of, allowed, header_in};
ghost use Rattle.import_formats.specs.declared.matrix_market.fault.MatrixLineFault.TheVariants.{NoHeader};

use crate::matrix_market::fault::MatrixLineFault;
use crate::matrix_market::matrix::Direction;
use import_lines::{line_text, next_word};

/// What a header says of the entries.
#[derive(Clone, Copy, Debug)]
pub(crate) struct Header {
    /// Whether each entry has a value.
    pub(crate) has_values: bool,
    /// Whether the edges have a direction.
    pub(crate) is_directed: bool,
}

/// The words of a line that has five.
#[derive(Clone, Copy, Debug)]
struct HeaderWords<'a> {
    banner: &'a str,
    object: &'a str,
    format: &'a str,
    field: &'a str,
    symmetry: &'a str,
}

/// Whether a word is this one, in letters of any case.
fn says(word: &str, name: &str) -> bool
    ensures { result ≡ says word.now name.now }
{
    word.eq_ignore_ascii_case(name)
}

/// Whether entries of this field have values.
fn read_field(field: &str) -> Result<bool, MatrixLineFault>
    ensures { result ≡ values_in field.now }
{
    if says(field, "pattern") {
        return Ok(false);
    }
    if says(field, "integer") || says(field, "real") {
        return Ok(true);
    }
    Err(MatrixLineFault::UnknownField)
}

/// Whether edges of this symmetry have a direction.
fn read_symmetry(symmetry: &str) -> Result<bool, MatrixLineFault>
    ensures { result ≡ direction_in symmetry.now }
{
    if says(symmetry, "symmetric") {
        return Ok(false);
    }
    if says(symmetry, "general") {
        return Ok(true);
    }
    Err(MatrixLineFault::UnknownSymmetry)
}

/// The five words of a line, where it has as many.
fn header_words(text: &str) -> Option<HeaderWords<'_>>
    ensures { MatchOption result (header_of (words_of text.now) ≡ Err NoHeader) (λ w. words_of text.now ≡ w.banner.now ∷ w.object.now ∷ w.format.now ∷ w.field.now ∷ w.symmetry.now ∷ []) }
{
    let (banner, rest) = next_word(text)?;
    let (object, rest) = next_word(rest)?;
    let (format, rest) = next_word(rest)?;
    let (field, rest) = next_word(rest)?;
    let (symmetry, rest) = next_word(rest)?;
    if next_word(rest).is_some() {
        return None;
    }
    Some(HeaderWords {
        banner,
        object,
        format,
        field,
        symmetry,
    })
}

/// What five words say of the entries.
fn words_header(words: HeaderWords<'_>) -> Result<Header, MatrixLineFault>
    ensures { result ≡ header_of (words.entry.banner.now ∷ words.entry.object.now ∷ words.entry.format.now ∷ words.entry.field.now ∷ words.entry.symmetry.now ∷ []) }
{
    if !says(words.banner, "%%MatrixMarket") || !says(words.object, "matrix") {
        return Err(MatrixLineFault::NoHeader);
    }
    if says(words.format, "array") {
        return Err(MatrixLineFault::ArrayFormat);
    }
    if !says(words.format, "coordinate") {
        return Err(MatrixLineFault::NoHeader);
    }
    let has_values = read_field(words.field)?;
    let is_directed = read_symmetry(words.symmetry)?;
    Ok(Header {
        has_values,
        is_directed,
    })
}

/// What a text of a line says of the entries.
fn text_header(text: &str) -> Result<Header, MatrixLineFault>
    ensures { result ≡ header_of (words_of text.now) }
{
    match header_words(text) {
        Some(words) => words_header(words),
        None => Err(MatrixLineFault::NoHeader),
    }
}

/// What is taken of a header where a direction of edges is treated so.
fn allowed(direction: Direction, header: Header) -> Result<Header, MatrixLineFault>
    ensures { result ≡ allowed direction header }
{
    match direction {
        Direction::Refused => {
            if header.is_directed {
                return Err(MatrixLineFault::Directed);
            }
            Ok(header)
        }
        Direction::LeftAside => Ok(Header {
            has_values: header.has_values,
            is_directed: false,
        }),
        Direction::Kept => Ok(header),
    }
}

/// What a header says of the entries below it.
pub(crate) fn read_header(line: &[u8], direction: Direction) -> Result<Header, MatrixLineFault>
    ensures { result ≡ header_in direction line.now }
{
    let text = line_text(line)?;
    let header = text_header(text)?;
    allowed(direction, header)
}
