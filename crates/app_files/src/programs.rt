//! Programs that are read: their texts, or those that models are expanded to, and the names of their fields' values.

use crate::constants::{ConstantWord, given_constants};
use crate::ending::Ending;
use crate::files::{bytes_at, name_at};
use crate::model_told::refusal_of;
use app_why::Named;
use model_rules::{Given, ModelProgramFault, expanded, field_states};
use std::alloc::{AllocError, Global};
use std::rt::Files;

/// Whether a path is that of a model: it ends in `.model`.
pub fn is_model(path: &str) -> bool {
    path.ends_with(".model")
}

/// How people know the text of the program at a path; of a model that to which it is expanded.
pub fn program_name(alloc: Global, path: &str) -> Result<String, AllocError> {
    let name = name_at(path);
    if is_model(path) {
        format!(in alloc; "{name} (expanded)")
    } else {
        String::from_str(alloc, name)
    }
}

/// What is told where a model has no program.
fn refused(
    alloc: Global,
    name: &str,
    text: &[u8],
    constants: &[Given],
    fault: ModelProgramFault,
) -> Ending {
    let told = match refusal_of(alloc, text, constants, fault) {
        Ok(refusal) => refusal.told(alloc, Named { name, text }),
        Err(_) => Err(AllocError),
    };
    Ending::refused(told)
}

/// The program text that the model of this text is expanded to, where these constants have these values.
pub fn expanded_by(
    alloc: Global,
    name: &str,
    text: &[u8],
    constants: &[Given],
) -> Result<Vec<u8>, Ending> {
    match expanded(alloc, text, constants) {
        Ok(bytes) => Ok(bytes),
        Err(fault) => Err(refused(alloc, name, text, constants, fault)),
    }
}

/// The program text that the model of this text is expanded to, where these words give constants values.
pub fn expanded_text(
    alloc: Global,
    name: &str,
    text: &[u8],
    constants: &[ConstantWord],
) -> Result<Vec<u8>, Ending> {
    let constants = given_constants(alloc, text, constants)?;
    expanded_by(alloc, name, text, &constants)
}

/// The names of the values of each field of the model of this text, in order: those of the states that it has; none of a
/// field without states.
pub fn state_names(alloc: Global, name: &str, text: &[u8]) -> Result<Vec<Vec<String>>, Ending> {
    match field_states(alloc, text) {
        Ok(names) => Ok(names),
        Err(fault) => Err(refused(alloc, name, text, &[], ModelProgramFault::from(fault))),
    }
}

/// The names of the values of the field at a place, 0 and so on, of those of all fields; none where it has none.
pub fn names_of_field(names: &[Vec<String>], place: u32) -> &[String] {
    match names.get(place as usize) {
        Some(names) => names.as_slice(),
        None => &[],
    }
}

/// What is told where a constant is given a value, and the program is no model.
fn no_model(alloc: Global, path: &str) -> Result<String, AllocError> {
    let name = name_at(path);
    format!(in alloc;
        "--const: {name} is no model, of which constants could be given values; the name of a model ends in .model"
    )
}

/// Refuses constants that are given values where the program at a path is no model.
pub fn check_model(alloc: Global, path: &str) -> Result<(), Ending> {
    if is_model(path) {
        return Ok(());
    }
    Err(Ending::usage(no_model(alloc, path)))
}

/// The same, where there are such constants.
pub fn check_constants(
    alloc: Global,
    path: &str,
    constants: &[ConstantWord],
) -> Result<(), Ending> {
    if constants.is_empty() {
        return Ok(());
    }
    check_model(alloc, path)
}

/// The text of a program, and the names of the values of its fields.
#[derive(Drop)]
pub struct NamedProgram {
    /// The text; of a model that to which it is expanded.
    pub text: Vec<u8>,
    /// For each field of a model, in order, the names of its values, 0 and so on; none where a field has no states, and of
    /// a program that is no model.
    pub names: Vec<Vec<String>>,
    /// The text of the model, where the program is one.
    pub model: Option<Vec<u8>>,
}

/// The program of the model of this text, where these words give constants values.
fn named_model(
    alloc: Global,
    name: &str,
    model: Vec<u8>,
    constants: &[ConstantWord],
) -> Result<NamedProgram, Ending> {
    let text = expanded_text(alloc, name, &model, constants)?;
    let names = state_names(alloc, name, &model)?;
    let model = Some(model);
    Ok(NamedProgram { text, names, model })
}

/// The program at a path, `-` for standard input: its text, of a model that to which it is expanded, where these words give
/// constants values, with the names of the model's states. Constants are refused where there is no model.
pub fn named_program_at(
    rt: &(impl Files + Input + AllocGlobal),
    path: &str,
    constants: &[ConstantWord],
) -> Result<NamedProgram, Ending> {
    check_constants(rt.alloc(), path, constants)?;
    let text = bytes_at(rt, path)?;
    if is_model(path) {
        return named_model(rt.alloc(), path, text, constants);
    }
    let names = Vec::new(rt.alloc());
    Ok(NamedProgram {
        text,
        names,
        model: None,
    })
}

/// The text of the same program alone.
pub fn program_at(
    rt: &(impl Files + Input + AllocGlobal),
    path: &str,
    constants: &[ConstantWord],
) -> Result<Vec<u8>, Ending> {
    let program = named_program_at(rt, path, constants)?;
    let NamedProgram { text, .. } = program;
    Ok(text)
}
