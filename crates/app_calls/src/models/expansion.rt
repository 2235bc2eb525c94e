//! The programs that models are expanded to, put in front of a caller's memory.
ghost use Rattle.std.specs.Prelude.{◌≡◌, ◌≢◌, length, IfOk, IfErr, OnErr, OnOk};
ghost use Rattle.app_calls.specs.ModelAnswers.{HasExpansion, IsExpansion, IsLongModel, IsNoExpansion, IsUnexpanded};

use crate::models::constants::{checked_names, constants_of};
use crate::models::fault::ModelCallFault;
use crate::spelling::put_text;
use model_rules::{ModelProgramFault, expanded};
use model_text::ModelFault;
use std::alloc::Global;

/// The most bytes of a model.
const MOST_BYTES: usize = 65536;

/// The text of the program that a model is expanded to, where names and values set constants.
fn program_text(
    alloc: Global,
    model: &[u8],
    names: &[u8],
    values: &[u32],
) -> Result<Vec<u8>, ModelCallFault>
    ensures expanded { IfOk result (λ v. HasExpansion model.now names.now values.now v.items) }
    ensures refused { IfErr result (IsNoExpansion model.now names.now values.now) }
    ensures long { IfErr result (IsLongModel model.now) }
{
    if model.len() > MOST_BYTES {
        let fault = ModelProgramFault::Text(ModelFault::TooLong);
        return Err(ModelCallFault::Model(fault));
    }
    let text = checked_names(names, values.len())?;
    let constants = constants_of(alloc, text, values)?;
    let program = expanded(alloc, model, &constants)?;
    Ok(program)
}

/// Writes the text of the program that a model is expanded to, where the constants of these names, an LF after each, have
/// these values, to the front of the text, and how long it is; where there is too little room, how long it is alone. A model
/// of more than 65,536 bytes, and names and values that set no constants, are refused without memory.
pub fn write_expansion(
    alloc: Global,
    model: &[u8],
    names: &[u8],
    values: &[u32],
    text: &mut [u8],
    len: &mut usize,
) -> Result<(), ModelCallFault>
    ensures written { OnOk result (IsExpansion model.now names.now values.now text.old text.new len.new) }
    ensures kept { OnErr result (text.new ≡ text.old) }
    ensures sized { IfErr result (λ fault. fault ≢ ModelCallFault.Room → len.new ≡ len.old) }
    ensures refused { IfErr result (IsUnexpanded model.now names.now values.now (length text.old) len.new) }
    ensures long { IfErr result (IsLongModel model.now) }
{
    let program = program_text(alloc, model, names, values)?;
    match put_text(&program, text, len) {
        Ok(()) => Ok(()),
        Err(_) => Err(ModelCallFault::Room),
    }
}
