//! Numbers, texts and states as JSON.
ghost use Rattle.std.specs.Prelude.{◌≡◌, ◌∷◌, ◌++◌, [], IfOk, OnOk, map, string_bytes};
ghost use Rattle.serde_json.specs.Data.{string};
ghost use Rattle.serde_json.specs.View.{view};
ghost use Rattle.run_page.specs.Pages.{listed, numbers as numbers_data, shown, shown_values, texts, whole};

use rule_check::State;
use serde_json::Value;
use std::alloc::{AllocError, Global};

/// An array of numbers.
pub(crate) fn numbers(alloc: Global, given: &[u32]) -> Result<Value, AllocError>
    ensures { IfOk result (λ v. view v ≡ numbers_data given.now) }
{
    let mut items = Vec::with_capacity(alloc, given.len())?;
    for number in given {
        items.push(Value::from(*number))?;
    }
    Ok(Value::Array(items))
}

/// A text as the array of its bytes.
pub(crate) fn bytes(alloc: Global, text: &str) -> Result<Value, AllocError>
    ensures { IfOk result (λ v. view v ≡ numbers_data text.now) }
{
    let mut items = Vec::with_capacity(alloc, text.len())?;
    for byte in text.as_bytes() {
        items.push(Value::from(*byte))?;
    }
    Ok(Value::Array(items))
}

/// Adds the values of a state's shown fields.
pub(crate) fn put_shown(
    items: &mut Vec<Value>,
    state: &State,
    fields: &[u32],
) -> Result<(), AllocError>
    ensures { OnOk result (map view items.new.items ≡ map view items.old.items ++ map whole (shown fields.now state.now)) }
{
    for place in fields {
        items.push(Value::from(state.value(*place)))?;
    }
    Ok(())
}

/// The shown values of these states, node by node.
pub(crate) fn shown_array(
    alloc: Global,
    states: &[State],
    fields: &[u32],
) -> Result<Value, AllocError>
    ensures { IfOk result (λ v. view v ≡ numbers_data (shown_values fields.now states.now)) }
{
    let mut items = Vec::with_capacity(alloc, states.len().saturating_mul(fields.len()))?;
    for state in states {
        put_shown(&mut items, state, fields)?;
    }
    Ok(Value::Array(items))
}
