//! `--const`: constants of a model that are given values.

use crate::decimals::chance_of;
use app_files::{ConstantValue, ConstantWord, begins_with_letter, number_or_none};
use app_table::{Argument, Kind, OPTION, Reading, WordsFault};
use std::alloc::{AllocError, Global};

pub const CONSTANT: Argument = Argument {
    name: "const",
    kind: Kind::Repeated,
    value_name: "NAME=VALUE",
    help: "Where PROGRAM is a model, a file whose name ends in .model: give a constant this value, a whole number from 0 to 4294967295, none, the name of a state, or, where it is a chance, a decimal as 0.05 or percents as 5%; as often as wanted",
    ..OPTION
};

/// `CONSTANT`, as it is read.
static CONSTANT_ARGUMENT: Argument = CONSTANT;

/// The value that a word gives a constant, where it is one.
pub fn constant_value(alloc: Global, word: &str) -> Result<Option<ConstantValue>, AllocError> {
    if let Some(value) = number_or_none(word) {
        return Ok(Some(ConstantValue::Number(value)));
    }
    if let Some(billionths) = chance_of(word) {
        return Ok(Some(ConstantValue::Chance(billionths)));
    }
    if !begins_with_letter(word) {
        return Ok(None);
    }
    let state = String::from_str(alloc, word)?;
    Ok(Some(ConstantValue::State(state)))
}

/// The name and the value of a word of `--const`.
fn constant_parts(alloc: Global, word: &str) -> Result<Option<(&str, ConstantValue)>, AllocError> {
    let Some((name, value)) = word.split_once('=') else {
        return Ok(None);
    };
    match constant_value(alloc, value)? {
        Some(value) => Ok(Some((name, value))),
        None => Ok(None),
    }
}

/// What is told where a word has not its parts.
fn no_constant(alloc: Global, word: &str) -> WordsFault {
    WordsFault::told(format!(in alloc;
        "--const: expected NAME=VALUE, with a whole number from 0 to 4294967295, none, a chance as 0.05 or 5%, or the name of a state after the `=`, found `{word}`"
    ))
}

/// The name in a word that gives a constant several values, and what stands for them.
pub fn several_parts(word: &str) -> Option<(&str, &str)> {
    let (name, values) = word.split_once('=')?;
    if values.split_once("..").is_none() && values.split_once(',').is_none() {
        return None;
    }
    Some((name, values))
}

/// What is told where a word gives a constant several values, and one is wanted.
fn one_wanted(alloc: Global, word: &str) -> WordsFault {
    WordsFault::told(format!(in alloc;
        "--const: `{word}` gives several values, which `count` alone takes; expected NAME=VALUE"
    ))
}

/// What is told where a constant is given two values.
pub fn given_twice(alloc: Global, name: &str) -> WordsFault {
    WordsFault::told(format!(in alloc; "--const: `{name}` is given two values"))
}

/// Whether one of the constants has this name.
pub fn is_given(constants: &[ConstantWord], name: &str) -> bool {
    for constant in constants {
        if constant.name.as_str() == name {
            return true;
        }
    }
    false
}

/// The constant that a word after others gives a value.
fn constant_of(
    alloc: Global,
    constants: &[ConstantWord],
    word: &str,
) -> Result<ConstantWord, WordsFault> {
    if several_parts(word).is_some() {
        return Err(one_wanted(alloc, word));
    }
    let Some((name, value)) = constant_parts(alloc, word)? else {
        return Err(no_constant(alloc, word));
    };
    if is_given(constants, name) {
        return Err(given_twice(alloc, name));
    }
    let name = String::from_str(alloc, name)?;
    Ok(ConstantWord { name, value })
}

/// Puts the constant that a word gives a value after the others.
fn put_constant(
    constants: &mut Vec<ConstantWord>,
    alloc: Global,
    word: &str,
) -> Result<(), WordsFault> {
    let constant = constant_of(alloc, constants, word)?;
    match constants.push(constant) {
        Ok(()) => Ok(()),
        Err(_) => Err(WordsFault::Memory),
    }
}

/// The constants that words of `--const` give values, no two of one name.
pub fn constants_of(alloc: Global, words: &[String]) -> Result<Vec<ConstantWord>, WordsFault> {
    let mut constants = Vec::new(alloc);
    for word in words {
        put_constant(&mut constants, alloc, word.as_str())?;
    }
    Ok(constants)
}

/// The constants that `--const` gives values, no two of one name.
pub fn constants_in(reading: &mut Reading) -> Vec<ConstantWord> {
    let words = reading.texts(&CONSTANT_ARGUMENT);
    match constants_of(reading.alloc(), &words) {
        Ok(constants) => constants,
        Err(fault) => {
            reading.refuse(fault);
            Vec::new(reading.alloc())
        }
    }
}

/// The words of a command line, those of `--const` apart.
#[derive(Drop)]
struct PartedWords {
    constants: Vec<String>,
    others: Vec<String>,
}

/// Puts a copy of a word after the others.
pub fn put_word(words: &mut Vec<String>, alloc: Global, word: &str) -> Result<(), AllocError> {
    words.push(String::from_str(alloc, word)?)?;
    Ok(())
}

/// The words of a command line, those of `--const` apart.
fn part_words(alloc: Global, line: &[String]) -> Result<PartedWords, AllocError> {
    let mut constants = Vec::new(alloc);
    let mut others = Vec::new(alloc);
    let mut is_value = false;
    for word in line {
        let word = word.as_str();
        if is_value {
            put_word(&mut constants, alloc, word)?;
            is_value = false;
        } else if word == "--const" {
            is_value = true;
        } else if let Some(value) = word.strip_prefix("--const=") {
            put_word(&mut constants, alloc, value)?;
        } else {
            put_word(&mut others, alloc, word)?;
        }
    }
    if is_value {
        put_word(&mut constants, alloc, "")?;
    }
    Ok(PartedWords { constants, others })
}

/// The constants that the words of `--const` in a command line give values, no two of one name, and its other words.
pub fn constants_among(
    alloc: Global,
    line: &[String],
) -> Result<(Vec<ConstantWord>, Vec<String>), WordsFault> {
    let words = part_words(alloc, line)?;
    let constants = constants_of(alloc, &words.constants)?;
    let PartedWords { others, .. } = words;
    Ok((constants, others))
}
