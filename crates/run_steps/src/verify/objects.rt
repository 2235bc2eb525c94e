//! JSON objects that are read.
ghost use Rattle.std.specs.Prelude.{◌≡◌, ◌<◌, Some, codes, length, IfOk, IfSome};
ghost use Rattle.std.specs.List.{count_by};
ghost use Rattle.std.specs.Option.{option_map, is_some};
ghost use Rattle.rule_check.specs.Value.{names_of};
ghost use Rattle.serde_json.specs.Find.{get};
ghost use Rattle.serde_json.specs.Read.{read};
ghost use Rattle.serde_json.specs.View.{view};
ghost use Rattle.run_steps.specs.verify.Fields.{IsAnswer, none_given};
ghost use Rattle.run_steps.specs.verify.Objects.{numbered, node_by, word_by, with_member, with_fields, if_all, size_of, values_by, is_true, lets_move, node_in, step_in, entry_in, object_entry};
ghost use Rattle.run_steps.specs.verify.Walks.{IsStepOf};

use crate::script::node_called;
use crate::verify::entry::{Entry, Given};
use crate::verify::fault::VerifyFault;
use crate::verify::nodes::{node_found, slot_found};
use net_names::NodeNames;
use rounds_plan::SimplePlan;
use rule_check::Program;
use serde_json::Value;
use serde_json::error::Category;
use std::alloc::Global;
use unison_world::Step;

/// The node that a number calls, where no names are given.
fn numbered(plan: &SimplePlan<'_>, names: Option<&NodeNames>, number: u64) -> Option<u32>
    ensures exact { result ≡ numbered plan.now.network (option_map (λ n. n.now) names.entry) (Some number) }
    ensures node { IfSome result (λ u. u < length plan.now.network) }
{
    if names.is_some() || number >= plan.nodes() as u64 {
        return None;
    }
    Some(number as u32)
}

/// The node that a value calls: a string as a word of that text does, a number by itself where no names are given.
fn node_by(plan: &SimplePlan<'_>, names: Option<&NodeNames>, value: &Value) -> Option<u32>
    ensures exact { result ≡ node_by plan.now.network (option_map (λ n. n.now) names.entry) (view value.now) }
    ensures node { IfSome result (λ u. u < length plan.now.network) }
{
    if let Some(name) = value.as_str() {
        return node_called(&plan.rows(), names, name);
    }
    numbered(plan, names, value.as_u64()?)
}

/// The number from 0 to 4,294,967,295 that a value is.
fn word_by(value: &Value) -> Option<u32>
    ensures { result ≡ word_by (view value.now) }
{
    let number = value.as_u64()?;
    if number > u32::MAX as u64 {
        return None;
    }
    Some(number as u32)
}

/// Values, and the one of the field at this place, where the state has a member for it.
fn with_member(
    line: u64,
    given: Given,
    field: u32,
    member: Option<&Value>,
) -> Result<Given, VerifyFault>
    requires few { field < 8 }
    ensures { result ≡ with_member line given field (option_map (λ v. view v.now) member.entry) }
{
    let Some(value) = member else {
        return Ok(given);
    };
    let Some(word) = word_by(value) else {
        return Err(VerifyFault::BadState { line });
    };
    let mut more = given;
    more.values[field as usize] = Some(word);
    Ok(more)
}

/// The values that a state has for fields of a program.
fn with_fields(program: &Program, line: u64, state: &Value) -> Result<Given, VerifyFault>
    ensures { result ≡ with_fields line (view state.now) none_given 0 (names_of program.now) }
{
    let mut given = Given { values: [None; 8] };
    for field in 0..program.field_count() {
        let name = program.field_name(field).unwrap_or("");
        given = with_member(line, given, field, state.get(name))?;
    }
    Ok(given)
}

/// How many values are given.
fn count_of(given: &Given) -> usize
    ensures { result ≡ count_by is_some given.now.values }
{
    let mut count = 0;
    for value in &given.values {
        if value.is_some() {
            count += 1;
        }
    }
    count
}

/// How many members a value has, where it is an object.
fn size_of(value: &Value) -> Option<usize>
    ensures { result ≡ size_of (view value.now) }
{
    let members = value.as_object()?;
    Some(members.len())
}

/// The values, where they are as many as the members of a state.
fn if_all(line: u64, size: Option<usize>, given: Given) -> Result<Given, VerifyFault>
    ensures { result ≡ if_all line size given }
{
    let Some(size) = size else {
        return Err(VerifyFault::BadState { line });
    };
    if count_of(&given) != size {
        return Err(VerifyFault::BadState { line });
    }
    Ok(given)
}

/// The values that a state gives, where there is one.
#[tactic(auto, unfolding(crate::specs::verify::Objects::values_by))]
fn values_by(program: &Program, line: u64, state: Option<&Value>) -> Result<Given, VerifyFault>
    ensures { result ≡ values_by (names_of program.now) line (option_map (λ v. view v.now) state.entry) }
{
    let Some(state) = state else {
        return Ok(Given { values: [None; 8] });
    };
    let given = with_fields(program, line, state)?;
    if_all(line, size_of(state), given)
}

/// Whether a member says `true`.
fn is_true(member: Option<&Value>) -> bool
    ensures { result ≡ is_true (option_map (λ v. view v.now) member.entry) }
{
    match member {
        Some(value) => value.as_bool().unwrap_or(false),
        None => false,
    }
}

/// Whether an object lets a node move.
fn lets_move(object: &Value) -> bool
    ensures { result ≡ lets_move (view object.now) }
{
    is_true(object.get("moves")) || is_true(object.get("turn"))
}

/// The node that an object calls.
fn node_in(
    plan: &SimplePlan<'_>,
    names: Option<&NodeNames>,
    line: u64,
    object: &Value,
) -> Result<u32, VerifyFault>
    ensures exact { result ≡ node_in plan.now (option_map (λ n. n.now) names.entry) line (view object.now) }
    ensures node { IfOk result (λ u. u < length plan.now.network) }
{
    match object.get("node") {
        Some(value) => node_found(plan, line, node_by(plan, names, value)),
        None => Err(VerifyFault::NoNode { line }),
    }
}

/// The step of an object.
fn step_in(
    plan: &SimplePlan<'_>,
    names: Option<&NodeNames>,
    line: u64,
    object: &Value,
) -> Result<Step, VerifyFault>
    ensures exact { result ≡ step_in plan.now (option_map (λ n. n.now) names.entry) line (view object.now) (get (codes "reads") (view object.now)) }
    ensures step { IfOk result (IsStepOf plan.now.network) }
{
    let read = object.get("reads");
    if lets_move(object) == read.is_some() {
        return Err(VerifyFault::NoStep { line });
    }
    let node = node_in(plan, names, line, object)?;
    let Some(value) = read else {
        return Ok(Step::Write { node });
    };
    let slot = slot_found(plan, line, node, node_by(plan, names, value))?;
    Ok(Step::Read { node, slot })
}

/// What an object says.
fn entry_in(
    plan: &SimplePlan<'_>,
    names: Option<&NodeNames>,
    line: u64,
    object: &Value,
) -> Result<Entry, VerifyFault>
    ensures exact { result ≡ entry_in plan.now (option_map (λ n. n.now) names.entry) line (view object.now) }
    ensures step { IfOk result (λ e. IsStepOf plan.now.network e.step) }
{
    let step = step_in(plan, names, line, object)?;
    let given = values_by(plan.program(), line, object.get("state"))?;
    Ok(Entry { step, given })
}

/// What a line of this text says, which begins with `{`.
#[tactic(auto, unfolding(crate::specs::verify::Objects::object_entry))]
pub(crate) fn object_entry(
    alloc: Global,
    plan: &SimplePlan<'_>,
    names: Option<&NodeNames>,
    line: u64,
    text: &str,
) -> Result<Entry, VerifyFault>
    ensures exact { IsAnswer (object_entry plan.now (option_map (λ n. n.now) names.entry) line (read text.now)) result }
    ensures step { IfOk result (λ e. IsStepOf plan.now.network e.step) }
{
    match Value::from_str(alloc, text) {
        Ok(object) => entry_in(plan, names, line, &object),
        Err(error) => match error.classify() {
            Category::Memory => Err(VerifyFault::Memory),
            _ => Err(VerifyFault::NotJson { line }),
        },
    }
}
