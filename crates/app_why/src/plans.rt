//! Why a program and a network make no plan.

use crate::entries::{entry_place, key_place};
use crate::near::nearest;
use crate::told::{Part, Told};
use link_net::NetFile;
use rounds_plan::PlanCause;
use rule_check::Program;
use std::alloc::{AllocError, Global};

/// The key at fault.
fn key_of(cause: &PlanCause) -> usize {
    match *cause {
        PlanCause::UnknownField { key }
        | PlanCause::BadNode { key, .. }
        | PlanCause::BadValue { key, .. }
        | PlanCause::SetTwice { key, .. } => key,
    }
}

/// The name of a key of `set`.
fn key_name<'f>(file: &'f NetFile, key: usize) -> &'f str {
    match file.sets().get(key) {
        Some(set) => set.name.as_str(),
        None => "",
    }
}

/// An entry of a key of `set`.
fn entry_text(
    alloc: Global,
    file: &NetFile,
    key: usize,
    entry: usize,
) -> Result<String, AllocError> {
    let Some(set) = file.sets().get(key) else {
        return Ok(String::new(alloc));
    };
    match set.pairs.as_slice().get(entry) {
        Some((node, value)) => format!(in alloc; "[{node}, {value}]"),
        None => Ok(String::new(alloc)),
    }
}

/// What is wrong.
fn what_text(alloc: Global, file: &NetFile, cause: &PlanCause) -> Result<String, AllocError> {
    let name = key_name(file, key_of(cause));
    match *cause {
        PlanCause::UnknownField { .. } => format!(in alloc;
            "`{name}` in `set` is no field of the program"
        ),
        PlanCause::BadNode { key, entry } => {
            let text = entry_text(alloc, file, key, entry)?;
            format!(in alloc;
                "entry {entry} of `{name}` in `set`, {text}, names no node of the network"
            )
        }
        PlanCause::BadValue { key, entry } => {
            let text = entry_text(alloc, file, key, entry)?;
            format!(in alloc;
                "entry {entry} of `{name}` in `set`, {text}, has no value from 0 to 4294967295"
            )
        }
        PlanCause::SetTwice {
            key,
            entry,
            earlier,
        } => {
            let text = entry_text(alloc, file, key, entry)?;
            let other = entry_text(alloc, file, key, earlier)?;
            format!(in alloc;
                "entry {entry} of `{name}` in `set`, {text}, sets the same node as entry {earlier}, {other}"
            )
        }
    }
}

/// The names of a program's fields.
fn names_of<'p>(alloc: Global, program: &'p Program) -> Result<Vec<&'p str>, AllocError> {
    let mut names = Vec::new(alloc);
    for field in 0..program.field_count() {
        names.push(program.field_name(field).unwrap_or(""))?;
    }
    Ok(names)
}

/// What to do about a key that is no field: the nearest field, or which there are.
fn field_hint(alloc: Global, program: &Program, name: &str) -> Result<String, AllocError> {
    let names = names_of(alloc, program)?;
    match nearest(alloc, name, &names)? {
        Some(near) => format!(in alloc; "did you mean `{near}`?"),
        None => format!(in alloc; "declare it in the program: field {name} = 0;"),
    }
}

/// What to do.
fn hint_text(
    alloc: Global,
    program: &Program,
    file: &NetFile,
    cause: &PlanCause,
) -> Result<String, AllocError> {
    match *cause {
        PlanCause::UnknownField { key } => field_hint(alloc, program, key_name(file, key)),
        PlanCause::BadNode { .. } => {
            let last = file.network().nodes().saturating_sub(1);
            format!(in alloc; "entries are [node, value], and nodes are numbered from 0 to {last}")
        }
        PlanCause::BadValue { .. } => String::from_str(alloc, "entries are [node, value]"),
        PlanCause::SetTwice { .. } => String::from_str(alloc, "leave one of the two out"),
    }
}

/// Where the fault is seen in the text of the network.
fn spot(
    alloc: Global,
    bytes: &[u8],
    file: &NetFile,
    cause: &PlanCause,
) -> Result<Option<usize>, AllocError> {
    let name = key_name(file, key_of(cause));
    match *cause {
        PlanCause::UnknownField { .. } => Ok(key_place(bytes, "set", name)),
        PlanCause::BadNode { key, entry }
        | PlanCause::BadValue { key, entry }
        | PlanCause::SetTwice { key, entry, .. } => {
            let text = entry_text(alloc, file, key, entry)?;
            entry_place(alloc, bytes, "set", name, entry, text.as_str())
        }
    }
}

/// What is told of a network file, of these bytes, whose `set` does not fit the program. Entries are counted from 0, in
/// the file's order.
pub(crate) fn tell_plan(
    alloc: Global,
    program: &Program,
    bytes: &[u8],
    file: &NetFile,
    cause: &PlanCause,
) -> Result<Told, AllocError> {
    Ok(Told {
        part: Some(Part::Network),
        at: spot(alloc, bytes, file, cause)?,
        what: what_text(alloc, file, cause)?,
        hint: hint_text(alloc, program, file, cause)?,
    })
}
