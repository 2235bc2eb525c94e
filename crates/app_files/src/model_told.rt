//! What is told of a model that has no program.

use crate::model_hints::{Sought, near_hint, outside_hint, parameters_of, text_hint};
use app_why::{Named, model_word_hint, shown_in};
use model_rules::{Cause, Given, ModelProgramFault};
use model_text::{Expected, ModelFault, expected_words};
use std::alloc::{AllocError, Global};
use std::str;

/// Why a model has no program, as it is told.
#[derive(Drop)]
pub struct ModelRefusal {
    /// The name of the fault.
    pub kind: &'static str,
    /// The byte at which it lies, counted from 0, where it lies at one.
    at: Option<usize>,
    /// What is wrong, in one line.
    what: String,
    /// What to do, or nothing.
    hint: String,
}

impl ModelRefusal {
    /// The place, the name of the fault, what is wrong, the line with a mark below the place, and what to do, as `why` tells of a
    /// program.
    pub fn found(&self, alloc: Global, named: Named) -> Result<String, AllocError> {
        let kind = self.kind;
        let what = self.what.as_str();
        let what = format!(in alloc; "model {kind}: {what}")?;
        shown_in(alloc, named, self.at, what.as_str(), self.hint.as_str())
    }

    /// The part and the name of the fault, and below it the same in lines of its own, the last without LF.
    pub fn told(&self, alloc: Global, named: Named) -> Result<String, AllocError> {
        let shown = shown_in(
            alloc,
            named,
            self.at,
            self.what.as_str(),
            self.hint.as_str(),
        )?;
        let kind = self.kind;
        let shown = shown.as_str().trim_ascii_end();
        format!(in alloc; "model {kind}\n{shown}")
    }
}

/// Whether a byte may stand in a word.
fn is_word_byte(byte: u8) -> bool {
    byte.is_ascii_alphanumeric() || byte == b'_'
}

/// The word at the front of these bytes: letters, digits and `_`.
pub(crate) fn front_word(bytes: &[u8]) -> &str {
    let end = bytes
        .iter()
        .position(|byte| !is_word_byte(*byte))
        .unwrap_or(bytes.len());
    str::from_utf8(&bytes[..end.min(bytes.len())]).unwrap_or("")
}

/// The name at the front of these bytes, which may stand after `n.`.
fn front_name(bytes: &[u8]) -> &str {
    match bytes {
        [b'n', b'.', rest @ ..] => front_word(rest),
        _ => front_word(bytes),
    }
}

/// The character at the front of these bytes; none where no character begins there.
fn front_character(bytes: &[u8]) -> Option<&str> {
    for length in 1..bytes.len().min(4) + 1 {
        if let Ok(text) = str::from_utf8(&bytes[..length]) {
            return Some(text);
        }
    }
    None
}

/// The number at the front of these bytes, which begin with a digit: with its point and what stands after it, where it has
/// them.
fn front_number(bytes: &[u8]) -> &str {
    let end = bytes
        .iter()
        .position(|byte| !is_word_byte(*byte) && *byte != b'.')
        .unwrap_or(bytes.len());
    str::from_utf8(&bytes[..end.min(bytes.len())]).unwrap_or("")
}

/// What stands at the front of these bytes, as people read it: the end of the text, a word, a sign or a byte.
fn found_text(alloc: Global, bytes: &[u8]) -> Result<String, AllocError> {
    let word = front_word(bytes);
    match bytes {
        [] => String::from_str(alloc, "the end of the text"),
        [b'n', b'.', rest @ ..] if !front_word(rest).is_empty() => {
            let name = front_word(rest);
            format!(in alloc; "`n.{name}`")
        }
        [b'0'..=b'9', ..] => {
            let number = front_number(bytes);
            format!(in alloc; "`{number}`")
        }
        [b'=' | b'!' | b'<' | b'>', b'=', ..] => {
            let sign = str::from_utf8(&bytes[..2]).unwrap_or("");
            format!(in alloc; "`{sign}`")
        }
        [byte, ..] => match front_character(bytes) {
            Some(_) if !word.is_empty() => format!(in alloc; "`{word}`"),
            Some(character) if *byte >= b' ' => format!(in alloc; "`{character}`"),
            _ => {
                let byte = *byte;
                format!(in alloc; "the byte {byte}")
            }
        },
    }
}

/// The bytes of a text from a place on.
fn rest_at(text: &[u8], at: u32) -> &[u8] {
    &text[text.len().min(at as usize)..]
}

/// What is wrong where no token begins.
fn lexical_what(alloc: Global, rest: &[u8]) -> Result<String, AllocError> {
    match rest.first() {
        Some(b'0'..=b'9') => String::from_str(alloc, "this number cannot be read"),
        _ => {
            let found = found_text(alloc, rest)?;
            format!(in alloc; "found {found}, with which nothing begins")
        }
    }
}

/// What is wrong where a token cannot stand.
fn syntax_what(alloc: Global, rest: &[u8], expected: Expected) -> Result<String, AllocError> {
    if expected == Expected::Shallower {
        return String::from_str(alloc, "the expression is deeper than 100");
    }
    let wanted = expected_words(expected);
    let found = found_text(alloc, rest)?;
    format!(in alloc; "expected {wanted}, found {found}")
}

/// The refusal of a text that is no model.
fn text_refusal(alloc: Global, text: &[u8], fault: ModelFault) -> Result<ModelRefusal, AllocError> {
    let (kind, at, what) = match fault {
        ModelFault::TooLong => (
            "TooLong",
            None,
            String::from_str(alloc, "a model has 65536 bytes at most")?,
        ),
        ModelFault::Lex { at } => (
            "Lex",
            Some(at as usize),
            lexical_what(alloc, rest_at(text, at))?,
        ),
        ModelFault::Syntax { at, expected } => (
            "Syntax",
            Some(at as usize),
            syntax_what(alloc, rest_at(text, at), expected)?,
        ),
        ModelFault::Memory => return Err(AllocError),
    };
    Ok(ModelRefusal {
        kind,
        at,
        what,
        hint: text_hint(alloc, text, fault)?,
    })
}

/// The name of a cause, what is wrong after the name at its place or instead of it, and what to do.
#[derive(Clone, Copy)]
struct CauseWords {
    kind: &'static str,
    /// What stands before the name that is at fault.
    before: &'static str,
    /// What stands after it; where this is empty, the name isn't told.
    behind: &'static str,
    hint: &'static str,
}

/// A cause that is told with the name at its place.
const fn of_name(
    kind: &'static str,
    before: &'static str,
    behind: &'static str,
    hint: &'static str,
) -> CauseWords {
    CauseWords {
        kind,
        before,
        behind,
        hint,
    }
}

/// A cause that is told without a name.
const fn of_place(kind: &'static str, what: &'static str, hint: &'static str) -> CauseWords {
    of_name(kind, what, "", hint)
}

/// What is told of names.
fn name_words(cause: Cause) -> CauseWords {
    match cause {
        Cause::UnknownName => of_name(
            "UnknownName",
            "nothing is called ",
            ".",
            "a name is that of a constant, a state, a field, a let or a parameter",
        ),
        Cause::UnknownNear => of_name(
            "UnknownNear",
            "no field and no let is called ",
            ".",
            "behind `n.` stands the name of a field or a let, `id` or `weight`",
        ),
        Cause::UnknownStates => of_name(
            "UnknownStates",
            "no states are called ",
            ".",
            "states are declared by an item: states NAME { A, B, .. }",
        ),
        cause => field_words(cause),
    }
}

/// What is told of fields and of what leads back to itself.
fn field_words(cause: Cause) -> CauseWords {
    match cause {
        Cause::NoField => of_name(
            "NoField",
            "no field is called ",
            ".",
            "a next value is that of a field, which is declared by: field NAME = NUMBER;",
        ),
        Cause::NextTwice => of_name(
            "NextTwice",
            "the field ",
            " has a next value already",
            "a field has one next value: put both into one by `if` or `cases`",
        ),
        Cause::Ring => of_name(
            "Ring",
            "",
            " cannot be worked out: it leads back to itself, or uses something that does",
            "a constant or a let may use later ones, but not itself, also not by others",
        ),
        cause => use_words(cause),
    }
}

/// What is told of how things are used.
fn use_words(cause: Cause) -> CauseWords {
    match cause {
        Cause::WrongCount => of_name(
            "WrongCount",
            "",
            " takes another number of arguments",
            "a let is used with as many arguments as it has parameters",
        ),
        Cause::WrongArguments => of_name(
            "WrongArguments",
            "",
            " takes another number of arguments",
            "",
        ),
        Cause::NeighbourOutside => of_place(
            "NeighbourOutside",
            "a neighbour is named outside of an aggregate",
            "`n` stands for each neighbour in turn, in total(..), least(..), most(..), count(..), any(..) or all(..)",
        ),
        Cause::NestedAggregate => of_place(
            "NestedAggregate",
            "an aggregate stands in an aggregate",
            "keep the inner one in a field, a round earlier",
        ),
        Cause::NotSeen => of_name(
            "NotSeen",
            "",
            " is not to be seen from a neighbour",
            "a let behind `n.` uses the fields and the number of its node alone: keep it in a field, a round earlier",
        ),
        cause => value_words(cause),
    }
}

/// What is told of constants and bounds.
fn value_words(cause: Cause) -> CauseWords {
    match cause {
        Cause::NotConstant => of_name(
            "NotConstant",
            "",
            " is given a value that is no constant",
            "a constant is made of numbers and constants by + - * / %, or is chance(..)",
        ),
        Cause::TooManyStates => of_name(
            "TooManyStates",
            "",
            " is the 257th state of its item, which has 256 at most",
            "what has more values is a field of numbers: field NAME = NUMBER;",
        ),
        Cause::NoState => of_name(
            "NoState",
            "the field ",
            " begins with a value that is none of its states",
            "the first state is 0, the second one 1, and so on",
        ),
        cause => bound_words(cause),
    }
}

/// What is told of a name that is there twice, by the name.
fn twice_words(name: &str) -> CauseWords {
    match name {
        "seed" => of_name(
            "NameTwice",
            "something is called ",
            " already",
            "each model has the constant `seed`, of which its random numbers are made: take another name",
        ),
        _ => of_name(
            "NameTwice",
            "something is called ",
            " already",
            "each name stands once: take another one",
        ),
    }
}

/// What is told of a value that is out of range, by the name of what has it.
fn range_words(name: &str) -> CauseWords {
    match name {
        "random" | "link_random" => of_name(
            "OutOfRange",
            "",
            " is given a bound that is not from 1 to 65536",
            "random(6) is a whole number from 0 to 5",
        ),
        "chance" | "chance_of" => of_name(
            "OutOfRange",
            "",
            " is given a decimal above 1",
            "a chance is a decimal from 0 to 1",
        ),
        _ => of_name(
            "OutOfRange",
            "",
            " is given a value below 0, above 4294967295, or divided by 0",
            "",
        ),
    }
}

/// What is told of a cause at a name.
fn words_of(cause: Cause, name: &str) -> CauseWords {
    match cause {
        Cause::OutOfRange => range_words(name),
        Cause::NameTwice => twice_words(name),
        cause => name_words(cause),
    }
}

/// What is told of the bounds of programs.
fn bound_words(cause: Cause) -> CauseWords {
    match cause {
        Cause::TooManyFields => of_place(
            "TooManyFields",
            "this is the ninth field, and a program has 8 at most",
            "",
        ),
        Cause::TooManyAggregates => of_place(
            "TooManyAggregates",
            "with this item the program has more than 16 aggregates",
            "each use of a let is its expression once more: keep it in a field, a round earlier",
        ),
        Cause::TooDeep => of_place(
            "TooDeep",
            "with all lets put in, this expression is deeper than 64",
            "keep a part in a field, a round earlier",
        ),
        _ => of_place(
            "TooLong",
            "with this item and all lets put in, the program has more than 65536 bytes, or the item more than 65536 parts",
            "each use of a let is its expression once more: keep it in a field, a round earlier",
        ),
    }
}

/// What to do about a function that takes another number of arguments.
fn function_hint(word: &str) -> &'static str {
    match word {
        "difference" => "write difference(a, b)",
        "min" | "max" => "min and max take one argument or more",
        "random" | "link_random" => "they take no argument or one, as random(6)",
        _ => "an aggregate takes one argument, as count(n.state == 1)",
    }
}

/// What to do about a let that takes another number of arguments, by what stands at the place.
fn count_hint(
    alloc: Global,
    text: &[u8],
    at: u32,
    word: &str,
) -> Result<Option<String>, AllocError> {
    if rest_at(text, at).starts_with(b"n.") {
        return Ok(Some(format!(in alloc;
            "a let with parameters is not seen from a neighbour: give it the neighbour's values, as in {word}(n.s)"
        )?));
    }
    match parameters_of(alloc, text, word) {
        Some(0) | None => Ok(Some(format!(in alloc; "`{word}` stands without brackets")?)),
        Some(1) => Ok(Some(format!(in alloc; "`{word}` takes 1 argument")?)),
        Some(count) => Ok(Some(format!(in alloc; "`{word}` takes {count} arguments")?)),
    }
}

/// What to do about a name that nothing has: a word of another language, or nearly the name of something.
fn unknown_hint(alloc: Global, text: &[u8], word: &str) -> Result<Option<String>, AllocError> {
    match model_word_hint(word) {
        Some(hint) => Ok(Some(String::from_str(alloc, hint)?)),
        None => near_hint(alloc, text, Sought::Any, word),
    }
}

/// What to do that hangs on the names of the model.
fn name_hint(
    alloc: Global,
    text: &[u8],
    cause: Cause,
    at: u32,
    word: &str,
) -> Result<Option<String>, AllocError> {
    match cause {
        Cause::UnknownName => unknown_hint(alloc, text, word),
        Cause::UnknownNear => near_hint(alloc, text, Sought::Near, word),
        Cause::NoField => near_hint(alloc, text, Sought::Field, word),
        Cause::UnknownStates => near_hint(alloc, text, Sought::States, word),
        Cause::NeighbourOutside => match outside_hint(text, at as usize) {
            Some(hint) => Ok(Some(String::from_str(alloc, hint)?)),
            None => Ok(None),
        },
        Cause::WrongCount => count_hint(alloc, text, at, word),
        Cause::WrongArguments => Ok(Some(String::from_str(alloc, function_hint(word))?)),
        _ => Ok(None),
    }
}

/// What is wrong: with the name that is at fault, or without one.
fn cause_what(alloc: Global, words: CauseWords, name: &str) -> Result<String, AllocError> {
    let before = words.before;
    match words.behind {
        "" => String::from_str(alloc, before),
        "." => format!(in alloc; "{before}`{name}`"),
        behind => format!(in alloc; "{before}`{name}`{behind}"),
    }
}

/// The refusal of a model that is not expanded.
fn cause_refusal(
    alloc: Global,
    text: &[u8],
    cause: Cause,
    at: u32,
) -> Result<ModelRefusal, AllocError> {
    let name = front_name(rest_at(text, at));
    let words = words_of(cause, name);
    let hint = match name_hint(alloc, text, cause, at, name)? {
        Some(hint) => hint,
        None => String::from_str(alloc, words.hint)?,
    };
    Ok(ModelRefusal {
        kind: words.kind,
        at: Some(at as usize),
        what: cause_what(alloc, words, name)?,
        hint,
    })
}

/// The refusal of a constant that is given a value, and that the model does not have.
fn given_refusal(
    alloc: Global,
    text: &[u8],
    constants: &[Given],
    place: usize,
) -> Result<ModelRefusal, AllocError> {
    let name = match constants.get(place) {
        Some(constant) => constant.name.as_str(),
        None => "",
    };
    let hint = match near_hint(alloc, text, Sought::Constant, name)? {
        Some(hint) => hint,
        None => String::from_str(alloc, "a constant is declared by: const NAME = NUMBER;")?,
    };
    Ok(ModelRefusal {
        kind: "UnknownGiven",
        at: None,
        what: format!(in alloc; "--const: the model has no constant `{name}`")?,
        hint,
    })
}

/// Why the model of a text has no program where these constants are given values, as it is told.
pub fn refusal_of(
    alloc: Global,
    text: &[u8],
    constants: &[Given],
    fault: ModelProgramFault,
) -> Result<ModelRefusal, AllocError> {
    match fault {
        ModelProgramFault::Text(fault) => text_refusal(alloc, text, fault),
        ModelProgramFault::Expansion { cause, at } => cause_refusal(alloc, text, cause, at),
        ModelProgramFault::UnknownGiven { place } => given_refusal(alloc, text, constants, place),
        ModelProgramFault::Memory => Err(AllocError),
    }
}
