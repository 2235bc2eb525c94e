//! What a header says of its array.
ghost use Rattle.std.specs.Prelude.{◌≡◌, ◌≢◌, ◌++◌, ◌==◌, ◌↔◌, ◌∷◌, [], ℕ, Bool, List, not, IsTrue, MatchOption, codes};
ghost use Rattle.std.specs.List.{AllByRecursion, prefix_len};
ghost use Rattle.rule_lang.specs.Tokens.{IsSpan};
ghost use Rattle.report_files.specs.npy.Headers.{IsFreeOf, IsHeader, order_text};
ghost use Rattle.report_files.specs.npy.Parts.{HasFront, HasBack};

use report_text::behind;

/// The words of a header: the type of the elements, and what stands between the parentheses of the shape.
#[derive(Clone, Copy)]
pub(crate) struct HeaderWords<'a> {
    pub(crate) kind: &'a [u8],
    pub(crate) shape: &'a [u8],
}

/// How many bytes stand before the first one of this value, or how many there are where there is none.
fn length_before(byte: u8, bytes: &[u8]) -> usize
    ensures { result ≡ prefix_len (λ b. not (b == byte)) bytes.now }
{
    for (place, found) in bytes.iter().enumerate() {
        if *found == byte {
            return place;
        }
    }
    bytes.len()
}

/// What stands before the first byte of this value, or all where there is none, and what follows.
fn split_before(byte: u8, bytes: &[u8]) -> (&[u8], &[u8])
    ensures { IsSpan (λ b. not (b == byte)) bytes.now result.0.now result.1.now }
{
    bytes.split_at(length_before(byte, bytes))
}

/// What stands after the word for an order.
fn behind_order(bytes: &[u8]) -> Option<&[u8]>
    ensures { MatchOption result ((order : Bool) (rest : List ℕ) → bytes.now ≢ order_text order ++ rest) (λ rest. (order : Bool) × (bytes.now ≡ order_text order ++ rest.now)) }
{
    if let Some(rest) = behind(b"True", bytes) {
        return Some(rest);
    }
    behind(b"False", bytes)
}

/// The type of the elements, and what stands after the parenthesis that opens the shape.
fn split_front(header: &[u8]) -> Option<(&[u8], &[u8])>
    ensures { MatchOption result ((kind rest : List ℕ) → HasFront header.now kind rest → ⊥) (λ x. HasFront header.now x.0.now x.1.now) }
{
    let quoted = behind(b"{'descr': '", header)?;
    let (kind, rest) = split_before(b'\'', quoted);
    let ordered = behind(b"', 'fortran_order': ", rest)?;
    let rest = behind_order(ordered)?;
    let shape = behind(b", 'shape': (", rest)?;
    Some((kind, shape))
}

/// Whether bytes are blanks up to the end of a line.
fn are_blanks(bytes: &[u8]) -> bool
    ensures { IsTrue result ↔ (blanks : List ℕ) × AllByRecursion (λ b. IsTrue (b == 32)) blanks × (bytes.now ≡ blanks ++ 10 ∷ []) }
{
    match bytes.split_last() {
        Some((last, blanks)) => *last == b'\n' && blanks.iter().all(|byte| *byte == b' '),
        None => false,
    }
}

/// What stands between the parentheses of the shape, where the header ends after them.
fn shape_in(rest: &[u8]) -> Option<&[u8]>
    ensures { MatchOption result ((shape : List ℕ) → HasBack rest.now shape → ⊥) (λ shape. HasBack rest.now shape.now) }
{
    let (shape, rest) = split_before(b')', rest);
    let blanks = behind(b"), }", rest)?;
    if are_blanks(blanks) {
        Some(shape)
    } else {
        None
    }
}

/// The words of a header.
pub(crate) fn header_words(header: &[u8]) -> Option<HeaderWords<'_>>
    ensures { MatchOption result ((kind shape : List ℕ) → IsHeader header.now kind shape → ⊥) (λ words. IsHeader header.now words.kind.now words.shape.now) }
{
    let (kind, rest) = split_front(header)?;
    let shape = shape_in(rest)?;
    Some(HeaderWords { kind, shape })
}
