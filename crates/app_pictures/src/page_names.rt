//! What the values of fields are called on a page.

use app_files::{Ending, field_place};
use rule_check::Program;
use std::alloc::{AllocError, Global};

/// Puts the place of the field of this name, which stands after `--node-field`.
fn put_place(
    places: &mut Vec<u32>,
    alloc: Global,
    program: &Program,
    word: &str,
) -> Result<(), Ending> {
    let place = field_place(alloc, program, "--node-field", word)?;
    places.push(place)?;
    Ok(())
}

/// The places of the fields of these names, which stand after `--node-field`.
fn places_of(alloc: Global, program: &Program, words: &[String]) -> Result<Vec<u32>, Ending> {
    let mut places = Vec::new(alloc);
    for word in words {
        put_place(&mut places, alloc, program, word.as_str())?;
    }
    Ok(places)
}

/// Puts a copy of a name after the others.
fn put_copy(copy: &mut Vec<String>, alloc: Global, name: &str) -> Result<(), AllocError> {
    let text = String::from_str(alloc, name)?;
    copy.push(text)?;
    Ok(())
}

/// A copy of names.
fn copied(alloc: Global, names: &[String]) -> Result<Vec<String>, AllocError> {
    let mut copy = Vec::with_capacity(alloc, names.len())?;
    for name in names {
        put_copy(&mut copy, alloc, name.as_str())?;
    }
    Ok(copy)
}

/// The names of the states of the field at a place; none where it has none.
fn states_at(states: &[Vec<String>], place: u32) -> &[String] {
    match states.get(place as usize) {
        Some(names) => names.as_slice(),
        None => &[],
    }
}

/// The names of the values of the field at a place: of those at these places the names of the nodes, of others those of their states.
fn names_at<'a>(
    place: u32,
    states: &'a [Vec<String>],
    places: &[u32],
    labels: &'a [String],
) -> &'a [String] {
    if places.contains(&place) {
        labels
    } else {
        states_at(states, place)
    }
}

/// Puts a copy of names after the others.
fn put_names(
    all: &mut Vec<Vec<String>>,
    alloc: Global,
    names: &[String],
) -> Result<(), AllocError> {
    let copy = copied(alloc, names)?;
    all.push(copy)?;
    Ok(())
}

/// The names of the values of each field of so many: of those at these places the names of the nodes, of others those of their states.
fn names_with(
    alloc: Global,
    fields: u32,
    states: &[Vec<String>],
    places: &[u32],
    labels: &[String],
) -> Result<Vec<Vec<String>>, AllocError> {
    let mut all = Vec::new(alloc);
    for place in 0..fields {
        put_names(&mut all, alloc, names_at(place, states, places, labels))?;
    }
    Ok(all)
}

/// The names of the values of each field of a program: of those that `--node-field` names the names of the nodes, of others those of
/// their states, where they have some.
pub(crate) fn value_names(
    alloc: Global,
    program: &Program,
    states: &[Vec<String>],
    node_fields: &[String],
    labels: &[String],
) -> Result<Vec<Vec<String>>, Ending> {
    let places = places_of(alloc, program, node_fields)?;
    names_with(alloc, program.field_count(), states, &places, labels).map_err(Ending::from)
}
