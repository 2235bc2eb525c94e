//! The values that `init` gives fields: numbers, and the names of states of a model.

use app_commands::program_in;
use app_files::{Ending, NamedProgram, ValueWord, field_place, named_program_at, names_of_field};
use rule_check::Program;
use std::alloc::Global;

/// The fields of a model, and the names of their values.
#[derive(Drop)]
pub(crate) struct ModelFields {
    program: Program,
    names: Vec<Vec<String>>,
}

impl ModelFields {
    /// The value that a word after an option gives the field of this name.
    fn value(
        &self,
        alloc: Global,
        option: &str,
        field: &str,
        word: &ValueWord,
    ) -> Result<u32, Ending> {
        let place = field_place(alloc, &self.program, option, field)?;
        word.value(alloc, option, field, names_of_field(&self.names, place))
    }
}

/// The fields of the model at a path, where there is one.
pub(crate) fn fields_at(
    rt: &HostRuntime,
    path: &Option<String>,
) -> Result<Option<ModelFields>, Ending> {
    let Some(path) = path else {
        return Ok(None);
    };
    let NamedProgram { text, names, .. } = named_program_at(rt, path.as_str(), &[])?;
    let program = program_in(rt.alloc(), &text)?;
    Ok(Some(ModelFields { program, names }))
}

/// The ending where a word names a state, and no model says which there are.
fn no_model(alloc: Global, option: &str, field: &str, state: &str) -> Ending {
    Ending::usage(format!(in alloc;
        "{option}: {field}: `{state}` is the name of a state, which --model FILE says; else expected a whole number from 0 to 4294967295, or none"
    ))
}

/// The value that a word after an option gives the field of this name; names of states are those of a model's fields.
pub(crate) fn value_for(
    alloc: Global,
    fields: &Option<ModelFields>,
    option: &str,
    field: &str,
    word: &ValueWord,
) -> Result<u32, Ending> {
    match (fields, word) {
        (Some(fields), word) => fields.value(alloc, option, field, word),
        (None, ValueWord::Number(value)) => Ok(*value),
        (None, ValueWord::Name(state)) => Err(no_model(alloc, option, field, state.as_str())),
    }
}
