//! Why a program is not well formed.

use crate::foreign::value_hint;
use crate::items::{
    item_tokens, mention_place, name_of, name_place, nested_place, outside_place, seventeenth_place,
};
use crate::near::nearest;
use crate::place_at;
use crate::told::{Part, Told};
use rule_check::CheckCause;
use rule_lang::{Item, Lexeme, Source, read_tokens};
use std::alloc::{AllocError, Global};

/// Where the fault is seen in the text.
fn spot(lexemes: &[Lexeme], cause: &CheckCause) -> Option<u32> {
    match cause {
        CheckCause::TooManyFields { item }
        | CheckCause::FieldTwice { item, .. }
        | CheckCause::NextTwice { item, .. }
        | CheckCause::UnknownTarget { item } => name_place(item_tokens(lexemes, *item)),
        CheckCause::UnknownName { item, name } => mention_place(item_tokens(lexemes, *item), name),
        CheckCause::NeighbourOutside { item } => outside_place(item_tokens(lexemes, *item)),
        CheckCause::NestedAggregate { item } => nested_place(item_tokens(lexemes, *item)),
        CheckCause::TooManyAggregates { .. } => seventeenth_place(lexemes),
    }
}

/// The name of the item at fault.
fn item_name<'a>(lexemes: &[Lexeme<'a>], cause: &CheckCause) -> &'a str {
    match cause {
        CheckCause::TooManyFields { item }
        | CheckCause::FieldTwice { item, .. }
        | CheckCause::NextTwice { item, .. }
        | CheckCause::UnknownTarget { item }
        | CheckCause::UnknownName { item, .. }
        | CheckCause::NeighbourOutside { item }
        | CheckCause::NestedAggregate { item }
        | CheckCause::TooManyAggregates { item } => name_of(item_tokens(lexemes, *item)),
    }
}

/// What is wrong.
fn what_text(alloc: Global, name: &str, cause: &CheckCause) -> Result<String, AllocError> {
    match cause {
        CheckCause::TooManyFields { .. } => format!(in alloc;
            "`{name}` is the ninth field, and a program has 8 at most"
        ),
        CheckCause::FieldTwice { .. } => format!(in alloc; "the field `{name}` is declared twice"),
        CheckCause::NextTwice { .. } => format!(in alloc;
            "the field `{name}` has two `next` items"
        ),
        CheckCause::UnknownTarget { .. } => format!(in alloc; "no field `{name}` is declared"),
        CheckCause::UnknownName { name, .. } => format!(in alloc; "no field `{name}` is declared"),
        CheckCause::NeighbourOutside { .. } => String::from_str(
            alloc,
            "a neighbour is named outside an aggregate",
        ),
        CheckCause::NestedAggregate { .. } => String::from_str(
            alloc,
            "an aggregate stands in an aggregate",
        ),
        CheckCause::TooManyAggregates { .. } => String::from_str(
            alloc,
            "this is the seventeenth aggregate, and a program has 16 at most",
        ),
    }
}

/// The names that `field` items declare.
fn declared<'s>(alloc: Global, source: &'s Source) -> Result<Vec<&'s str>, AllocError> {
    let mut names = Vec::new(alloc);
    for item in source.items() {
        if let Item::Field { name, .. } = item {
            names.push(name.as_str())?;
        }
    }
    Ok(names)
}

/// What to do about a name that is declared nowhere: the nearest one that is, or how to declare it.
fn unknown_hint(alloc: Global, source: &Source, name: &str) -> Result<String, AllocError> {
    let names = declared(alloc, source)?;
    match nearest(alloc, name, &names)? {
        Some(near) => format!(in alloc; "did you mean `{near}`?"),
        None => format!(in alloc; "declare it: field {name} = 0;"),
    }
}

/// What to do about a name in an expression that is declared nowhere.
fn value_text(alloc: Global, source: &Source, name: &str) -> Result<String, AllocError> {
    match value_hint(name) {
        Some(text) => String::from_str(alloc, text),
        None => unknown_hint(alloc, source, name),
    }
}

/// Where the other item of two parallel edges stands.
fn other_hint(
    alloc: Global,
    text: &[u8],
    lexemes: &[Lexeme],
    earlier: usize,
) -> Result<String, AllocError> {
    match name_place(item_tokens(lexemes, earlier)) {
        Some(at) => {
            let spot = place_at(text, at as usize);
            let line = spot.line;
            let column = spot.column;
            format!(in alloc; "the first one stands in line {line}, column {column}")
        }
        None => Ok(String::new(alloc)),
    }
}

/// What to do.
fn hint_text(
    alloc: Global,
    text: &[u8],
    source: &Source,
    lexemes: &[Lexeme],
    cause: &CheckCause,
) -> Result<String, AllocError> {
    match cause {
        CheckCause::TooManyFields { .. } => String::from_str(
            alloc,
            "pack two small numbers into one field: ((A * 65536) + B)",
        ),
        CheckCause::FieldTwice { earlier, .. } | CheckCause::NextTwice { earlier, .. } =>
            other_hint(alloc, text, lexemes, *earlier),
        CheckCause::UnknownTarget { .. } => unknown_hint(alloc, source, item_name(lexemes, cause)),
        CheckCause::UnknownName { name, .. } => value_text(alloc, source, name),
        CheckCause::NeighbourOutside { .. } => String::from_str(
            alloc,
            "a node has many neighbours: say of which, as in (least n.NAME) or (total n.NAME)",
        ),
        CheckCause::NestedAggregate { .. } => String::from_str(
            alloc,
            "compute the inner one in a field of its own, a round earlier",
        ),
        CheckCause::TooManyAggregates { .. } => String::from_str(
            alloc,
            "keep an aggregate that is wanted often in a field of its own",
        ),
    }
}

/// What is told of a program that is not well formed.
pub(crate) fn tell_refused(
    alloc: Global,
    text: &[u8],
    source: &Source,
    cause: &CheckCause,
) -> Result<Told, AllocError> {
    let lexemes = read_tokens(alloc, text)?.unwrap_or(Vec::new(alloc));
    let at = spot(&lexemes, cause).unwrap_or(0);
    Ok(Told {
        part: Some(Part::Program),
        at: Some(at as usize),
        what: what_text(alloc, item_name(&lexemes, cause), cause)?,
        hint: hint_text(alloc, text, source, &lexemes, cause)?,
    })
}
