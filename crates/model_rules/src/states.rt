//! The names of the values of each field.

ghost use Rattle.std.specs.Prelude.{◌≡◌, IfOk, IfErr};
ghost use Rattle.model_text.specs.View.{items_of};
ghost use Rattle.model_text.specs.Models.{IsRefusedAs};
ghost use Rattle.model_rules.specs.States.{AreFieldStates, states_of, texts_of};

use crate::members::names_for;
use model_text::{Item, ModelFault, read_model};
use std::alloc::{AllocError, Global};

/// The names of the values of each field, in the order of the fields.
fn states_of(alloc: Global, items: &[Item]) -> Result<Vec<Vec<String>>, AllocError>
    ensures exact { IfOk result (λ names. texts_of names.items ≡ states_of (items_of items.now) (items_of items.now)) }
{
    let mut names = Vec::new(alloc);
    for item in items {
        if let Item::Field { states, .. } = item {
            names.push(names_for(alloc, items, states)?)?;
        }
    }
    Ok(names)
}

/// The names of the values of each field of a model, in the order of the fields: where a field has states, their members
/// in order, of which the first is the name of 0, and none where it has no states. Of several states with one name the
/// first counts, and a field of states that are not there has no names; such models have no program.
///
/// `ModelFault` says why a text is no model.
pub fn field_states(alloc: Global, text: &[u8]) -> Result<Vec<Vec<String>>, ModelFault>
    ensures states { IfOk result (λ names. AreFieldStates text.now (texts_of names.items)) }
    ensures refused { IfErr result (IsRefusedAs text.now) }
{
    let items = read_model(alloc, text)?;
    let names = states_of(alloc, &items)?;
    Ok(names)
}
