//! `--const` of a command that counts several runs: constants of a model that have one value, and those that have several.

use app_commands::{
    CONSTANT, constant_value, constants_of, given_twice, is_given, put_word, several_parts,
};
use app_files::{ConstantValue, ConstantWord};
use app_table::{Argument, Reading, WordsFault, number};
use std::alloc::{AllocError, Global};

/// How many runs are counted together at most.
pub(crate) const MOST_SWEPT: usize = 10_000;

/// `CONSTANT` of a command that counts several runs.
pub const VARIED: Argument = Argument {
    value_name: "NAME=VALUE,..",
    help: "Where PROGRAM is a model, a file whose name ends in .model: give a constant this value, a whole number from 0 to 4294967295, none, the name of a state, or, where it is a chance, a decimal as 0.05 or percents as 5%; as often as wanted. Where it has several, NAME=FIRST..LAST or NAME=VALUE,VALUE, a run is counted for each of them, and of several such constants for each choice: 10000 at most",
    ..CONSTANT
};

/// `VARIED`, as it is read.
static VARIED_ARGUMENT: Argument = VARIED;

/// A constant of a model that has several values.
#[derive(Drop)]
pub struct Varied {
    pub name: String,
    /// The constant with each of its values, all different.
    pub words: Vec<ConstantWord>,
}

/// The constants of a model in several runs.
#[derive(Drop)]
pub struct RunConstants {
    /// Those that have one value in all runs.
    pub given: Vec<ConstantWord>,
    /// Those that have several.
    pub varied: Vec<Varied>,
}

/// What is told where no values can be read from a word that gives a constant several.
fn no_values(alloc: Global, word: &str) -> WordsFault {
    WordsFault::told(format!(in alloc;
        "--const: expected NAME=VALUE, NAME=FIRST..LAST or NAME=VALUE,VALUE, with whole numbers from 0 to 4294967295, the first of a range not the greater one, or with none, chances as 0.05 or 5%, or names of states, found `{word}`"
    ))
}

/// What is told where a constant has more values than runs are counted together.
fn too_many_values(alloc: Global, name: &str) -> WordsFault {
    WordsFault::told(format!(in alloc;
        "--const: `{name}` is given more than {MOST_SWEPT} values; at most {MOST_SWEPT} runs are counted together"
    ))
}

/// The numbers of a range: none where the first is the greater one, and of more than are counted together those up to the
/// first that is too many.
fn range_of(alloc: Global, first: u32, last: u32) -> Result<Vec<ConstantValue>, AllocError> {
    let last = last.min(first.saturating_add(MOST_SWEPT as u32));
    let mut values = Vec::new(alloc);
    for value in first..=last {
        values.push(ConstantValue::Number(value))?;
    }
    Ok(values)
}

/// The values between commas, of which one more may stand after the last; `None` where one cannot be read.
fn listed_in(alloc: Global, text: &str) -> Result<Option<Vec<ConstantValue>>, AllocError> {
    let text = text.strip_suffix(',').unwrap_or(text);
    let mut values = Vec::new(alloc);
    for part in text.split(',') {
        let Some(value) = constant_value(alloc, part)? else {
            return Ok(None);
        };
        values.push(value)?;
    }
    Ok(Some(values))
}

/// The first and the last number of a range.
fn range_parts(text: &str) -> Option<(u32, u32)> {
    let (first, last) = text.split_once("..")?;
    let first = number(first, 0, 4_294_967_295)?;
    let last = number(last, 0, 4_294_967_295)?;
    Some((first, last))
}

/// The numbers of a range, or the values between commas; `None` where one cannot be read.
fn values_in(alloc: Global, text: &str) -> Result<Option<Vec<ConstantValue>>, AllocError> {
    match range_parts(text) {
        Some((first, last)) => Ok(Some(range_of(alloc, first, last)?)),
        None => listed_in(alloc, text),
    }
}

/// What is told where a constant is given a value twice.
fn value_twice(alloc: Global, name: &str) -> WordsFault {
    WordsFault::told(format!(in alloc; "--const: `{name}` is given a value twice"))
}

/// Whether two values are the same.
fn is_same(one: &ConstantValue, other: &ConstantValue) -> bool {
    match (one, other) {
        (ConstantValue::Number(one), ConstantValue::Number(other)) => one == other,
        (ConstantValue::Chance(one), ConstantValue::Chance(other)) => one == other,
        (ConstantValue::State(one), ConstantValue::State(other)) => one.as_str() == other.as_str(),
        _ => false,
    }
}

/// Whether a value is among the words.
fn is_among(words: &[ConstantWord], value: &ConstantValue) -> bool {
    words.iter().any(|word| is_same(&word.value, value))
}

/// Puts the constant of this name with a value after the others.
fn put_value(
    words: &mut Vec<ConstantWord>,
    alloc: Global,
    name: &str,
    value: ConstantValue,
) -> Result<(), AllocError> {
    let name = String::from_str(alloc, name)?;
    words.push(ConstantWord { name, value })?;
    Ok(())
}

/// The constant of this name with each of these values; refused where one stands there twice.
fn words_of(
    alloc: Global,
    name: &str,
    values: Vec<ConstantValue>,
) -> Result<Vec<ConstantWord>, WordsFault> {
    let mut words = Vec::new(alloc);
    for value in values {
        if is_among(&words, &value) {
            return Err(value_twice(alloc, name));
        }
        put_value(&mut words, alloc, name, value)?;
    }
    Ok(words)
}

/// A constant with these values, of which there are some.
fn varied_with(
    alloc: Global,
    name: &str,
    values: Vec<ConstantValue>,
) -> Result<Varied, WordsFault> {
    if values.len() > MOST_SWEPT {
        return Err(too_many_values(alloc, name));
    }
    let words = words_of(alloc, name, values)?;
    let name = String::from_str(alloc, name)?;
    Ok(Varied { name, words })
}

/// The constant to which a word gives several values.
fn varied_of(alloc: Global, word: &str) -> Result<Varied, WordsFault> {
    let Some((name, text)) = several_parts(word) else {
        return Err(no_values(alloc, word));
    };
    match values_in(alloc, text)? {
        Some(values) if !values.is_empty() => varied_with(alloc, name, values),
        _ => Err(no_values(alloc, word)),
    }
}

/// Whether one of the constants has this name.
pub(crate) fn is_varied(varied: &[Varied], name: &str) -> bool {
    varied.iter().any(|constant| constant.name.as_str() == name)
}

/// Puts the constant to which a word gives several values after the others.
fn put_varied(constants: &mut RunConstants, alloc: Global, word: &str) -> Result<(), WordsFault> {
    let varied = varied_of(alloc, word)?;
    let name = varied.name.as_str();
    if is_given(&constants.given, name) || is_varied(&constants.varied, name) {
        return Err(given_twice(alloc, name));
    }
    match constants.varied.push(varied) {
        Ok(()) => Ok(()),
        Err(_) => Err(WordsFault::Memory),
    }
}

/// The words that give a constant one value.
fn single_words(alloc: Global, words: &[String]) -> Result<Vec<String>, AllocError> {
    let mut kept = Vec::new(alloc);
    for word in words {
        let word = word.as_str();
        if several_parts(word).is_none() {
            put_word(&mut kept, alloc, word)?;
        }
    }
    Ok(kept)
}

/// The constants that words of `--const` give values in several runs, no two of one name.
fn run_constants_of(alloc: Global, words: &[String]) -> Result<RunConstants, WordsFault> {
    let mut constants = RunConstants {
        given: constants_of(alloc, &single_words(alloc, words)?)?,
        varied: Vec::new(alloc),
    };
    for word in words {
        if several_parts(word.as_str()).is_some() {
            put_varied(&mut constants, alloc, word.as_str())?;
        }
    }
    Ok(constants)
}

/// The constants that `--const` gives values in several runs, no two of one name.
pub(crate) fn run_constants_in(reading: &mut Reading) -> RunConstants {
    let words = reading.texts(&VARIED_ARGUMENT);
    match run_constants_of(reading.alloc(), &words) {
        Ok(constants) => constants,
        Err(fault) => {
            reading.refuse(fault);
            RunConstants {
                given: Vec::new(reading.alloc()),
                varied: Vec::new(reading.alloc()),
            }
        }
    }
}
