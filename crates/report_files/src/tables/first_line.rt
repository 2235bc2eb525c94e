//! The names of the fields, as the first node's line has them.
ghost use Rattle.std.specs.Prelude.{◌≡◌, ◌≤◌, ◌<◌, ◌++◌, ◌∷◌, ◌^◌, ℕ, List, [], All, length, map, MatchOption, IsTrue, IfOk, IfErr};
ghost use Rattle.std.specs.List.{prefix_len, AllByRecursion};
ghost use Rattle.std.specs.Option.{option_map};
ghost use Rattle.rule_check.specs.WellFormed.{IsFieldName};
ghost use Rattle.rule_lang.specs.Tokens.{IsSpan, is_word_byte};
ghost use Rattle.report_text.specs.Front.{IsFront, Ends, Anything};
ghost use Rattle.report_text.specs.Report.{field_text, fields_text};
ghost use Rattle.report_text.specs.ReadReport.{IsStateOf};
ghost use Rattle.report_files.specs.declared.tables.row.Row.{Row};
ghost use Rattle.report_files.specs.tables.Tables.{IsRow, AreFields, row_text, row_line};

use report_text::{behind, read_number};
use rule_lang::reserved_word;
use std::alloc::{AllocError, Global};
use std::str;

/// How many bytes of a word stand at the front.
fn word_length(bytes: &[u8]) -> usize
    ensures { result ≡ prefix_len is_word_byte bytes.now }
{
    for (place, byte) in bytes.iter().enumerate() {
        if !(byte.is_ascii_alphanumeric() || *byte == b'_') {
            return place;
        }
    }
    bytes.len()
}

/// The bytes of a word at the front, and what stands after them.
fn split_word(bytes: &[u8]) -> (&[u8], &[u8])
    ensures { IsSpan is_word_byte bytes.now result.0.now result.1.now }
{
    bytes.split_at(word_length(bytes))
}

/// Letters, digits and `_` as a text.
fn text(word: &[u8]) -> &str
    requires word { AllByRecursion (λ b. IsTrue (is_word_byte b)) word.now }
    ensures same { result.now ≡ word.now }
{
    match str::from_utf8(word) {
        Ok(text) => text,
        Err(_) => "",
    }
}

/// Letters, digits and `_` as a field's name, where they are one.
fn as_name(word: &[u8]) -> Option<&str>
    requires word { AllByRecursion (λ b. IsTrue (is_word_byte b)) word.now }
    ensures name { MatchOption result (IsFieldName word.now → ⊥) (λ name. IsFieldName word.now × (name.now ≡ word.now)) }
{
    if !word.first()?.is_ascii_alphabetic() {
        return None;
    }
    let name = text(word);
    match reserved_word(name) {
        Some(_) => None,
        None => Some(name),
    }
}

/// The name of the field at the front, and what stands after its value.
fn read_name(bytes: &[u8]) -> Option<(&str, &[u8])>
    ensures found { MatchOption result (Unit {0}) (λ x. IsFieldName x.0.now × Ends x.1.now × ((value : ℕ) × (bytes.now ≡ field_text x.0.now value ++ x.1.now))) }
    ensures only { (name more : List ℕ) (value : ℕ) → IsFieldName name → value < 2 ^ 32 → Ends more → bytes.now ≡ field_text name value ++ more → MatchOption result ⊥ (λ x. (x.0.now ≡ name) × (x.1.now ≡ more)) }
{
    let named = behind(b" ", bytes)?;
    let (word, equal) = split_word(named);
    let name = as_name(word)?;
    let value = behind(b"=", equal)?;
    let (_, rest) = read_number(value)?;
    Some((name, rest))
}

/// What stands after the number of a line, and after its moves where they are counted.
fn behind_moves(counted: bool, bytes: &[u8]) -> Option<&[u8]>
    ensures { (fields : ℕ) (names : List (List ℕ)) (row : Row) (more : List ℕ) → IsRow fields counted row → bytes.now ≡ row_line names 0 row ++ more → MatchOption result ⊥ (λ rest. rest.now ≡ fields_text names row.state.words ++ (10 ∷ more)) }
{
    let (_, rest) = read_number(bytes)?;
    if !counted {
        return Some(rest);
    }
    let number = behind(b" moves ", rest)?;
    let (_, values) = read_number(number)?;
    Some(values)
}

/// The names of the fields that stand here, up to the first that is none.
fn read_names(alloc: Global, bytes: &[u8]) -> Result<Vec<&str>, AllocError>
    ensures fields { IfOk result (λ v. AreFields (map (λ f. f.now) v.items)) }
    ensures only { (names : List (List ℕ)) (words more : List ℕ) → AreFields names → length names ≤ length words → All (λ w. w < 2 ^ 32) words → bytes.now ≡ fields_text names words ++ (10 ∷ more) → IfOk result (λ v. map (λ f. f.now) v.items ≡ names) }
{
    let mut names = Vec::new(alloc);
    let mut rest = bytes;
    for place in 0..8_usize {
        let Some((name, more)) = read_name(rest) else {
            return Ok(names);
        };
        names.push(name)?;
        rest = more;
    }
    Ok(names)
}

/// The names of the fields, as the line of node 0 at the front of the bytes has them.
pub(crate) fn first_names(
    alloc: Global,
    counted: bool,
    bytes: &[u8],
) -> Result<Vec<&str>, AllocError>
    ensures fields { IfOk result (λ v. AreFields (map (λ f. f.now) v.items)) }
    ensures only { (names : List (List ℕ)) (row : Row) (more : List ℕ) → AreFields names → IsRow (length names) counted row → bytes.now ≡ row_line names 0 row ++ more → IfOk result (λ v. map (λ f. f.now) v.items ≡ names) }
{
    match behind_moves(counted, bytes) {
        Some(fields) => read_names(alloc, fields),
        None => Ok(Vec::new(alloc)),
    }
}
