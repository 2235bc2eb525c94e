//! What becomes of the rounds, as JSON.
ghost use Rattle.std.specs.Prelude.{◌≡◌, ◌∷◌, IfOk, Some, map};
ghost use Rattle.serde_json.specs.Data.{string};
ghost use Rattle.serde_json.specs.View.{view};
ghost use Rattle.run_page.specs.Pages.{listed, settling_data, whole};

use run_settle::Settling;
use serde_json::Value;
use std::alloc::{AllocError, Global};

/// A word and numbers.
fn worded(alloc: Global, word: &str, numbers: &[u32]) -> Result<Value, AllocError>
    ensures { IfOk result (λ v. view v ≡ listed (string word.now ∷ map whole numbers.now)) }
{
    let mut items = Vec::with_capacity(alloc, 3)?;
    let word = Value::try_from_str(alloc, word)?;
    items.push(word)?;
    for number in numbers {
        items.push(Value::from(*number))?;
    }
    Ok(Value::Array(items))
}

/// What becomes of the rounds, where it is known.
fn known(alloc: Global, settling: Settling) -> Result<Value, AllocError>
    ensures { IfOk result (λ v. view v ≡ listed (settling_data (Some settling))) }
{
    match settling {
        Settling::Settles { round } => worded(alloc, "settles", &[round]),
        Settling::Repeats { round, period } => worded(alloc, "repeats", &[round, period]),
        Settling::Open { limit } => worded(alloc, "open", &[limit]),
    }
}

/// What becomes of the rounds, or nothing.
pub(crate) fn settled(alloc: Global, settling: Option<Settling>) -> Result<Value, AllocError>
    ensures { IfOk result (λ v. view v ≡ listed (settling_data settling)) }
{
    match settling {
        Some(settling) => known(alloc, settling),
        None => Ok(Value::Array(Vec::new(alloc))),
    }
}
