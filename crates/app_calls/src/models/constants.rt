//! The constants of a model that a caller sets, by a text with their names and a list of their values.
ghost use Rattle.std.specs.Prelude.{◌≡◌, ◌+◌, ◌<◌, ◌++◌, ◌∷◌, [], length, IsTrue, IfOk, IfErr, OnOk, ◌↔◌};
ghost use Rattle.report_text.specs.Lines.{lines_of};
ghost use Rattle.model_rules.specs.ScopeView.{givens_of};
ghost use Rattle.app_calls.specs.Constants.{AreConstants, AreNoConstants, AreSound, IsEnded, line_feeds};

use crate::models::fault::ConstantsFault;
use model_rules::Given;
use std::alloc::{AllocError, Global};
use std::str;

/// Whether a text is empty or ends with LF.
fn is_ended(text: &[u8]) -> bool
    ensures exact { IsTrue result ↔ IsEnded text.now }
{
    match text.split_last() {
        Some((last, _)) => *last == b'\n',
        None => true,
    }
}

/// How many LFs there are.
fn line_feeds(text: &[u8]) -> usize
    ensures exact { result ≡ line_feeds text.now }
{
    text.iter().filter(|byte| **byte == b'\n').count()
}

/// The names as a text, where there is an LF after each, and as many of them as values.
pub(crate) fn checked_names(names: &[u8], values: usize) -> Result<&str, ConstantsFault>
    ensures same { IfOk result (λ text. text.now ≡ names.now) }
    ensures lines { OnOk result (length (lines_of names.now) ≡ values) }
    ensures feeds { OnOk result (line_feeds names.now ≡ values) }
    ensures sound { OnOk result (AreSound names.now values) }
    ensures refused { IfErr result (AreNoConstants names.now values) }
{
    let Ok(text) = str::from_utf8(names) else {
        return Err(ConstantsFault::NotUtf8);
    };
    if !is_ended(names) {
        return Err(ConstantsFault::Unended);
    }
    if line_feeds(names) != values {
        return Err(ConstantsFault::ValueCount);
    }
    Ok(text)
}

/// The first name, and the text after its LF; of a text without an LF all of it, and nothing.
fn first_name(names: &str) -> (&str, &str)
    ensures line { 0 < line_feeds names.now → lines_of names.now ≡ (result.0.now ++ 10 ∷ []) ∷ lines_of result.1.now }
    ensures feeds { 0 < line_feeds names.now → line_feeds names.now ≡ line_feeds result.1.now + 1 }
{
    match names.split_once('\n') {
        Some(parts) => parts,
        None => (names, ""),
    }
}

/// The constants with these names, an LF after each, and these values, of which there are as many.
pub(crate) fn constants_of(
    alloc: Global,
    names: &str,
    values: &[u32],
) -> Result<Vec<Given>, AllocError>
    requires lines { length (lines_of names.now) ≡ length values.now }
    requires feeds { line_feeds names.now ≡ length values.now }
    ensures set { IfOk result (λ v. AreConstants names.now values.now (givens_of v.items)) }
{
    let mut constants = Vec::new(alloc);
    let mut rest = names;
    for value in values {
        let (first, more) = first_name(rest);
        let name = String::from_str(alloc, first)?;
        constants.push(Given {
            name,
            value: *value,
        })?;
        rest = more;
    }
    Ok(constants)
}
