//! What each page says of its plan, and of the way in which it is shown.
ghost use Rattle.std.specs.Prelude.{◌≡◌, ◌<◌, [], All, IfOk, OnOk, length, map, slice_index_or, string_bytes};
ghost use Rattle.rule_check.specs.Value.{names_of};
ghost use Rattle.serde_json.specs.Data.{no_members};
ghost use Rattle.serde_json.specs.View.{members_view, view};
ghost use Rattle.run_page.specs.Pages.{headed, legend_of, texts, value_names};

use crate::links::links;
use crate::look::Look;
use crate::parts::bytes;
use rounds_plan::Plan;
use rule_check::Program;
use serde_json::{Map, Value, put};
use std::alloc::{AllocError, Global};

/// The name of the field at a place.
fn name_at(program: &Program, place: u32) -> &str
    requires place { place < length program.now.fields }
    ensures name { result.now ≡ slice_index_or (names_of program.now) place [] }
{
    program.field_name(place).unwrap_or("")
}

/// The names of the shown fields.
fn field_names(alloc: Global, program: &Program, fields: &[u32]) -> Result<Value, AllocError>
    requires fields { All (λ place. place < length program.now.fields) fields.now }
    ensures { IfOk result (λ v. view v ≡ texts (map (λ k. slice_index_or (names_of program.now) k []) fields.now)) }
{
    let mut items = Vec::with_capacity(alloc, fields.len())?;
    for place in fields {
        let name = bytes(alloc, name_at(program, *place))?;
        items.push(name)?;
    }
    Ok(Value::Array(items))
}

/// These names.
fn names(alloc: Global, given: &[String]) -> Result<Value, AllocError>
    ensures { IfOk result (λ v. view v ≡ texts (map string_bytes given.now)) }
{
    let mut items = Vec::with_capacity(alloc, given.len())?;
    for text in given {
        let name = bytes(alloc, text.as_str())?;
        items.push(name)?;
    }
    Ok(Value::Array(items))
}

/// The names of the values of the field at a place.
fn value_names<'a>(look: &Look<'a>, place: u32) -> &'a [String]
    ensures { map string_bytes result.now ≡ value_names look.now place }
{
    match look.names.get(place as usize) {
        Some(names) => names.as_slice(),
        None => &[],
    }
}

/// The names of the values of each shown field.
fn legend(alloc: Global, look: &Look<'_>) -> Result<Value, AllocError>
    ensures { IfOk result (λ v. view v ≡ legend_of look.now) }
{
    let mut items = Vec::with_capacity(alloc, look.fields.len())?;
    for place in look.fields {
        let values = names(alloc, value_names(look, *place))?;
        items.push(values)?;
    }
    Ok(Value::Array(items))
}

/// Puts what a page of this manner says first, where nothing is said yet.
#[tactic(auto, unfolding(crate::specs::Pages::headed))]
pub(crate) fn put_head(
    members: &mut Map<String, Value>,
    alloc: Global,
    plan: &Plan,
    look: &Look<'_>,
    manner: &str,
) -> Result<(), AllocError>
    requires blank { members_view members.old.entries ≡ no_members }
    requires fields { All (λ place. place < length plan.now.program.fields) look.now.fields.now }
    ensures { OnOk result (members_view members.new.entries ≡ headed plan.now look.now manner.now no_members) }
{
    let fields = field_names(alloc, plan.program(), look.fields)?;
    put(members, alloc, "fields", fields)?;
    put(members, alloc, "grid", Value::from(look.grid.unwrap_or(0)))?;
    let legend = legend(alloc, look)?;
    put(members, alloc, "legend", legend)?;
    let links = links(alloc, plan.network())?;
    put(members, alloc, "links", links)?;
    let manner = Value::try_from_str(alloc, manner)?;
    put(members, alloc, "manner", manner)?;
    let names = names(alloc, look.labels)?;
    put(members, alloc, "names", names)?;
    put(members, alloc, "nodes", Value::from(plan.network().nodes()))?;
    put(members, alloc, "phase", Value::from(plan.phase()))
}
