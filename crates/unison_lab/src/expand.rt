//! `expand MODEL`: the program that a model is expanded to.

use crate::expand_request::ExpandRequest;
use app_commands::asked_by;
use app_files::{Ending, Text, expanded_text, print_out, text_at};

/// Prints the program that the model of a text is expanded to. The status with which the program ends.
fn put_program(rt: &HostRuntime, text: &Text, asked: &ExpandRequest) -> Result<u8, Ending> {
    let bytes = expanded_text(
        rt.alloc(),
        text.name.as_str(),
        &text.bytes,
        &asked.constants,
    )?;
    print_out(rt, &bytes)
}

/// Prints the program that the model that is asked for is expanded to. The status with which the program ends.
fn put_expanded(rt: &HostRuntime, asked: &ExpandRequest) -> Result<u8, Ending> {
    let text = text_at(rt, asked.model.as_str())?;
    put_program(rt, &text, asked)
}

/// Prints the program that a model is expanded to. The status with which the program ends.
pub(crate) fn expand_model(rt: &HostRuntime, words: &[String]) -> Result<u8, Ending> {
    let asked = asked_by(ExpandRequest::parse(rt.alloc(), words))?;
    put_expanded(rt, &asked)
}
