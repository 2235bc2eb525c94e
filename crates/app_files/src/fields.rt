//! Fields of a program, by their names.

use crate::ending::Ending;
use app_table::Draft;
use rule_check::Program;
use std::alloc::{AllocError, Global};

/// The places of all fields.
pub fn all_fields(alloc: Global, program: &Program) -> Result<Vec<u32>, AllocError> {
    let mut places = Vec::new(alloc);
    for place in 0..program.field_count() {
        places.push(place)?;
    }
    Ok(places)
}

/// The names of all fields, with a comma and a blank between two.
fn put_names(draft: &mut Draft, program: &Program) {
    for place in 0..program.field_count() {
        if place > 0 {
            draft.put(", ");
        }
        draft.put(program.field_name(place).unwrap_or(""));
    }
}

/// What is told where a word after an option names no field.
fn no_field(
    alloc: Global,
    program: &Program,
    option: &str,
    word: &str,
) -> Result<String, AllocError> {
    let mut draft = Draft::new(alloc);
    draft.put(option);
    draft.put(": the program has no field `");
    draft.put(word);
    draft.put("`; its fields are ");
    put_names(&mut draft, program);
    draft.end()
}

/// The place of the field that a word after an option names.
pub fn field_place(
    alloc: Global,
    program: &Program,
    option: &str,
    word: &str,
) -> Result<u32, Ending> {
    match program.field_index(word) {
        Some(place) => Ok(place),
        None => Err(Ending::usage(no_field(alloc, program, option, word))),
    }
}

/// Puts the place of the field of this name, which stands after `--only`.
fn put_place(
    places: &mut Vec<u32>,
    alloc: Global,
    program: &Program,
    word: &str,
) -> Result<(), Ending> {
    let place = field_place(alloc, program, "--only", word)?;
    places.push(place)?;
    Ok(())
}

/// The places of the fields of these names, which stand after `--only`.
fn named_fields(alloc: Global, program: &Program, words: &[String]) -> Result<Vec<u32>, Ending> {
    let mut places = Vec::new(alloc);
    for word in words {
        put_place(&mut places, alloc, program, word.as_str())?;
    }
    Ok(places)
}

/// The places of the fields that are shown: those of these names, or all.
pub fn shown_fields(
    alloc: Global,
    program: &Program,
    only: &Option<Vec<String>>,
) -> Result<Vec<u32>, Ending> {
    match only {
        Some(words) => named_fields(alloc, program, words),
        None => match all_fields(alloc, program) {
            Ok(places) => Ok(places),
            Err(_) => Err(Ending::Memory),
        },
    }
}

/// What is told where no field is named, and the program has several.
fn many_fields(alloc: Global, program: &Program) -> Result<String, AllocError> {
    let mut draft = Draft::new(alloc);
    draft.put("--field FIELD is wanted: the program has the fields ");
    put_names(&mut draft, program);
    draft.end()
}

/// The place of the field by which is coloured: that of this name, or the only one.
pub fn coloured_field(
    alloc: Global,
    program: &Program,
    word: &Option<String>,
) -> Result<u32, Ending> {
    match word {
        Some(word) => field_place(alloc, program, "--field", word.as_str()),
        None if program.field_count() == 1 => Ok(0),
        None => Err(Ending::usage(many_fields(alloc, program))),
    }
}

/// The values that a field has: those of these names, or numbers where there are none.
fn put_values(draft: &mut Draft, names: &[String]) {
    if names.is_empty() {
        draft.put("its values are whole numbers from 0 to 4294967295");
        return;
    }
    draft.put("its states are ");
    for (place, name) in names.iter().enumerate() {
        if place > 0 {
            draft.put(", ");
        }
        draft.put(name.as_str());
    }
}

/// What is told where a word after an option names no value of a field, whose values have these names.
fn no_value(
    alloc: Global,
    option: &str,
    field: &str,
    names: &[String],
    word: &str,
) -> Result<String, AllocError> {
    let mut draft = Draft::new(alloc);
    draft.put(option);
    draft.put(": the field `");
    draft.put(field);
    draft.put("` has no state `");
    draft.put(word);
    draft.put("`; ");
    put_values(&mut draft, names);
    draft.end()
}

/// The place of a word among names.
fn place_among(names: &[String], word: &str) -> Option<u32> {
    let mut place = 0u32;
    for name in names {
        if name.as_str() == word {
            return Some(place);
        }
        place = place.saturating_add(1);
    }
    None
}

/// The value that a word after an option names, of a field whose values have these names.
pub fn value_named(
    alloc: Global,
    option: &str,
    field: &str,
    names: &[String],
    word: &str,
) -> Result<u32, Ending> {
    match place_among(names, word) {
        Some(value) => Ok(value),
        None => Err(Ending::usage(no_value(alloc, option, field, names, word))),
    }
}
