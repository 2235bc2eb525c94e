//! What to do about a mistake in a model's text: words and signs of other languages, names, and what is near to a word.

use crate::model_told::front_word;
use app_why::{called_word, model_sign_hint, model_word_hint, near_degree_hint, nearest};
use model_text::{Expected, Item, ModelFault, Name, hint, read_model};
use std::alloc::{AllocError, Global};

/// The words with which an expression may begin, beside names.
const WORDS: [&str; 20] = [
    "id",
    "degree",
    "round",
    "none",
    "cases",
    "total",
    "sum",
    "least",
    "most",
    "count",
    "any",
    "all",
    "min",
    "max",
    "difference",
    "random",
    "link_random",
    "chance",
    "chance_of",
    "not",
];

/// The words with which an item begins.
const ITEMS: [&str; 5] = ["const", "states", "field", "let", "next"];

/// How many letters a word has at least for which a near one is looked for: any two of fewer are near.
const LEAST_LENGTH: usize = 3;

/// The one of these words that is nearest to another, where one is near.
fn near_word(alloc: Global, word: &str, words: &[&str]) -> Result<Option<String>, AllocError> {
    match nearest(alloc, word, words)? {
        Some(near) => Ok(Some(format!(in alloc; "did you mean `{near}`?")?)),
        None => Ok(None),
    }
}

/// Whether words and signs of another language may be meant where this is expected.
fn may_be_foreign(expected: Expected) -> bool {
    !matches!(
        expected,
        Expected::Name
            | Expected::Assign
            | Expected::Open
            | Expected::Decimal
            | Expected::NoChain
            | Expected::Brackets
            | Expected::Shallower
    )
}

/// What to do where a decimal should stand and a name does.
fn decimal_hint(alloc: Global, front: &[u8], rest: &[u8]) -> Result<Option<String>, AllocError> {
    let name = front_word(rest);
    if !rest.first().is_some_and(|byte| byte.is_ascii_alphabetic()) {
        return Ok(None);
    }
    if front.trim_ascii_end().ends_with(b"chance_of(") {
        return Ok(Some(format!(in alloc;
            "with `const {name} = chance(0.05);` write random() < {name}"
        )?));
    }
    Ok(Some(String::from_str(
        alloc,
        "a chance is a decimal from 0 to 1, as in chance(0.05)",
    )?))
}

/// What to do about a token at a byte that cannot stand there.
fn syntax_hint(
    alloc: Global,
    text: &[u8],
    at: usize,
    expected: Expected,
) -> Result<Option<String>, AllocError> {
    let (front, rest) = text.split_at(at.min(text.len()));
    if expected == Expected::Decimal {
        return decimal_hint(alloc, front, rest);
    }
    if !may_be_foreign(expected) {
        return Ok(None);
    }
    let word = front_word(rest);
    match model_sign_hint(text, at).or(model_word_hint(word)) {
        Some(hint) => Ok(Some(String::from_str(alloc, hint)?)),
        None if expected == Expected::Item => near_word(alloc, word, &ITEMS),
        None => Ok(None),
    }
}

/// What to do about a text that is no model, where it hangs on words of other languages.
fn foreign_hint(
    alloc: Global,
    text: &[u8],
    fault: ModelFault,
) -> Result<Option<String>, AllocError> {
    match fault {
        ModelFault::Syntax { at, expected } => syntax_hint(alloc, text, at as usize, expected),
        ModelFault::Lex { at } if text[text.len().min(at as usize)..].starts_with(b"n.degree") =>
            Ok(Some(String::from_str(alloc, near_degree_hint())?)),
        _ => Ok(None),
    }
}

/// What to do about a neighbour that is named where none is meant, in the brackets of a function of another language.
pub(crate) fn outside_hint(text: &[u8], at: usize) -> Option<&'static str> {
    called_word(&text[..at.min(text.len())]).and_then(model_word_hint)
}

/// What to do about a text that is no model.
pub(crate) fn text_hint(
    alloc: Global,
    text: &[u8],
    fault: ModelFault,
) -> Result<String, AllocError> {
    match foreign_hint(alloc, text, fault)? {
        Some(text) => Ok(text),
        None => String::from_str(alloc, hint(text, fault).unwrap_or("")),
    }
}

/// What names are looked for.
#[derive(Clone, Copy, PartialEq, Eq)]
pub(crate) enum Sought {
    /// Names of an expression, and words with which one may begin.
    Any,
    /// What may stand after `n.`.
    Near,
    /// Fields.
    Field,
    /// Items of states.
    States,
    /// Constants.
    Constant,
}

/// Adds names.
fn put_names<'a>(words: &mut Vec<&'a str>, names: &'a [Name]) -> Result<(), AllocError> {
    for name in names {
        words.push(name.name.as_str())?;
    }
    Ok(())
}

/// Adds the names that an item gives, where they are looked for.
fn put_item<'a>(
    words: &mut Vec<&'a str>,
    sought: Sought,
    item: &'a Item,
) -> Result<(), AllocError> {
    match (item, sought) {
        (Item::Field { name, .. }, Sought::Any | Sought::Near | Sought::Field)
        | (Item::Let { name, .. }, Sought::Any | Sought::Near)
        | (Item::Const { name, .. }, Sought::Any | Sought::Constant)
        | (Item::States { name, .. }, Sought::States) => {
            words.push(name.name.as_str())?;
            Ok(())
        }
        (Item::States { members, .. }, Sought::Any) => put_names(words, members),
        _ => Ok(()),
    }
}

/// The names that are looked for.
fn words_of<'a>(
    alloc: Global,
    sought: Sought,
    items: &'a [Item],
) -> Result<Vec<&'a str>, AllocError> {
    let mut words = Vec::new(alloc);
    for item in items {
        put_item(&mut words, sought, item)?;
    }
    Ok(words)
}

/// Adds the words with which an expression may begin.
fn put_words(words: &mut Vec<&str>) -> Result<(), AllocError> {
    for word in WORDS {
        words.push(word)?;
    }
    Ok(())
}

/// The name in a model's text that is nearest to a word, where one is near.
pub(crate) fn near_hint(
    alloc: Global,
    text: &[u8],
    sought: Sought,
    word: &str,
) -> Result<Option<String>, AllocError> {
    if word.len() < LEAST_LENGTH {
        return Ok(None);
    }
    let Ok(items) = read_model(alloc, text) else {
        return Ok(None);
    };
    let mut words = words_of(alloc, sought, &items)?;
    if sought == Sought::Any {
        put_words(&mut words)?;
    }
    near_word(alloc, word, &words)
}

/// How many parameters the let of this name has, where there is one.
pub(crate) fn parameters_of(alloc: Global, text: &[u8], word: &str) -> Option<usize> {
    let items = read_model(alloc, text).ok()?;
    for item in &items {
        if let Item::Let {
            name,
            parameters,
            ..
        } = item
        {
            if name.name.as_str() == word {
                return Some(parameters.len());
            }
        }
    }
    None
}
