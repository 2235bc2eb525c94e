//! Texts that seem to be of another kind than the one that is wanted: a program for a network, or the other way round, or a
//! model.

use crate::told::{Part, Texts, Told};
use std::alloc::{AllocError, Global};

/// The first line with more than a comment, without the blanks about it.
fn first_line(text: &[u8]) -> &[u8] {
    for line in text.split(|byte| *byte == b'\n') {
        let line = line.trim_ascii();
        if !line.is_empty() && !line.starts_with(b"#") {
            return line;
        }
    }
    &[]
}

/// The word at the front of a line: its letters.
fn first_word(line: &[u8]) -> &[u8] {
    let length = line
        .iter()
        .position(|byte| !byte.is_ascii_alphabetic())
        .unwrap_or(line.len());
    &line[..length.min(line.len())]
}

/// Whether a text seems to be a program: it begins with an item.
fn seems_program(text: &[u8]) -> bool {
    matches!(first_word(first_line(text)), b"field" | b"next")
}

/// Whether a text seems to be a network: it begins with one of the keys of networks, or with their table, and not as an
/// item would that wants its first word.
fn seems_network(text: &[u8]) -> bool {
    let line = first_line(text);
    let begins = matches!(first_word(line), b"nodes" | b"links" | b"phase" | b"set");
    line.starts_with(b"[") || begins && !line.ends_with(b";")
}

/// Whether a line begins as an item of a model does, and none of a program.
fn begins_model_item(line: &[u8]) -> bool {
    matches!(first_word(line.trim_ascii()), b"const" | b"states" | b"let")
}

/// Whether a text seems to be a model: one of its lines begins as an item of a model does.
fn seems_model(text: &[u8]) -> bool {
    for line in text.split(|byte| *byte == b'\n') {
        if begins_model_item(line) {
            return true;
        }
    }
    false
}

/// What to do where the text of this part seems to be of another kind.
fn kind_hint(texts: &Texts, part: Part) -> Option<&'static str> {
    let network = match texts.network {
        Some(named) => named.text,
        None => &[],
    };
    match part {
        Part::Program if seems_model(texts.program.text) => Some(
            "this reads like a model: give the file a name that ends in .model, and it is expanded to a program",
        ),
        Part::Program if !seems_network(texts.program.text) => None,
        Part::Program if seems_program(network) => Some(
            "the program and the network seem to be exchanged: the program comes first, then the network",
        ),
        Part::Program => Some(
            "this seems to be a network: the program is wanted here, a text of items such as: field NAME = NUMBER;",
        ),
        Part::Network if seems_program(network) => Some(
            "this seems to be a program: the network is wanted here, a TOML document with `nodes` and `links`",
        ),
        _ => None,
    }
}

/// What is told of a text, with what to do about its kind where it seems to be of another one.
pub(crate) fn with_kind(alloc: Global, texts: &Texts, told: Told) -> Result<Told, AllocError> {
    let Some(hint) = told.part.and_then(|part| kind_hint(texts, part)) else {
        return Ok(told);
    };
    Ok(Told {
        part: told.part,
        at: told.at,
        what: told.what,
        hint: String::from_str(alloc, hint)?,
    })
}
