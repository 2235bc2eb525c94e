//! What is wrong with the names of a model.

ghost use Rattle.std.specs.Prelude.{◌≡◌, ◌++◌, [], map, IfOk, OnOk};
ghost use Rattle.std.specs.List.{filter_map};
ghost use Rattle.std.specs.Option.{option_map, option_or};
ghost use Rattle.rule_check.specs.WellFormed.{is_among};
ghost use Rattle.model_text.specs.View.{items_of, item_of, name_of};
ghost use Rattle.model_rules.specs.declared.fault.ExpandFault.TheVariants.{At, UnknownGiven};
ghost use Rattle.model_rules.specs.declared.fault.Cause.TheVariants as cause;
ghost use Rattle.model_rules.specs.declared.naming.NameKind.TheVariants as kind;
ghost use Rattle.model_rules.specs.Models.{bare};
ghost use Rattle.model_rules.specs.Naming.{given_by, names_given, name_as, names_as, repeat_after, stray, place_at, extra_state, parameter_twice, seed_in, seed_by, seed_taken, earlier, name_twice, unknown_given, naming_fault, misnamed, misused};
ghost use Rattle.model_rules.specs.ScopeView.{named, givens_of};

use crate::fault::{Cause, ExpandFault, wrong};
use crate::scope::{Given, place_among};
use model_text::{Item, Name};
use std::alloc::{AllocError, Global};

/// The most fields of a program.
const MOST_FIELDS: usize = 8;

/// The most states that may share a name.
pub const MOST_STATES: usize = 256;

/// The constant that each model has.
const SEED: &str = "seed";

/// Which names of items are meant.
#[derive(Clone, Copy)]
pub enum NameKind {
    /// Those of fields.
    Field,
    /// Those of fields that have a next value.
    Target,
    /// Those that states share.
    States,
    /// Those of the states that fields have.
    StatesUsed,
    /// Those of constants.
    Constant,
}

/// The name that an item has in this way.
fn name_in(kind: NameKind, item: &Item) -> Option<&Name>
    ensures exact { option_map (λ n. name_of n.now) result ≡ name_as kind (item_of item.now) }
{
    match item {
        Item::Field { name, states, .. } => match kind {
            NameKind::Field => Some(name),
            NameKind::StatesUsed => states.as_ref(),
            NameKind::Target | NameKind::States | NameKind::Constant => None,
        },
        Item::Next { name, .. } => match kind {
            NameKind::Target => Some(name),
            NameKind::Field | NameKind::States | NameKind::StatesUsed | NameKind::Constant => None,
        },
        Item::States { name, .. } => match kind {
            NameKind::States => Some(name),
            NameKind::Field | NameKind::Target | NameKind::StatesUsed | NameKind::Constant => None,
        },
        Item::Const { name, .. } => match kind {
            NameKind::Constant => Some(name),
            NameKind::Field | NameKind::Target | NameKind::States | NameKind::StatesUsed => None,
        },
        Item::Let { .. } => None,
    }
}

/// The names of a kind, in order.
fn names_in<'a>(
    kind: NameKind,
    items: &'a [Item],
    alloc: Global,
) -> Result<Vec<&'a Name>, AllocError>
    ensures exact { IfOk result (λ names. named names.items ≡ names_as kind (items_of items.now)) }
{
    let mut names = Vec::new(alloc);
    for item in items {
        if let Some(name) = name_in(kind, item) {
            names.push(name)?;
        }
    }
    Ok(names)
}

/// Adds names.
fn add_each<'a>(names: &mut Vec<&'a Name>, members: &'a [Name]) -> Result<(), AllocError>
    ensures added { OnOk result (named names.new.items ≡ named names.old.items ++ map name_of members.now) }
{
    for member in members {
        names.push(member)?;
    }
    Ok(())
}

/// Adds the names that an item gives.
fn add_given<'a>(names: &mut Vec<&'a Name>, item: &'a Item) -> Result<(), AllocError>
    ensures added { OnOk result (named names.new.items ≡ named names.old.items ++ given_by (item_of item.now)) }
{
    match item {
        Item::Const { name, .. } => names.push(name)?,
        Item::Field { name, .. } => names.push(name)?,
        Item::Let { name, .. } => names.push(name)?,
        Item::States { name, members } => {
            names.push(name)?;
            add_each(names, members)?;
        }
        Item::Next { .. } => {}
    }
    Ok(())
}

/// All names that are given, in order.
fn all_names<'a>(items: &'a [Item], alloc: Global) -> Result<Vec<&'a Name>, AllocError>
    ensures exact { IfOk result (λ names. named names.items ≡ names_given (items_of items.now)) }
{
    let mut names = Vec::new(alloc);
    for item in items {
        add_given(&mut names, item)?;
    }
    Ok(names)
}

/// Whether one of the names is this.
fn has_name(names: &[&Name], name: &str) -> bool
    ensures exact { result ≡ is_among (bare (named names.now)) name.now }
{
    for other in names {
        if other.name.as_str() == name {
            return true;
        }
    }
    false
}

/// The place of the first name that one before it equals.
fn first_repeat(names: &[&Name]) -> Option<u32>
    ensures exact { result ≡ repeat_after [] (named names.now) }
{
    for (k, name) in names.iter().enumerate() {
        if has_name(&names[..k], &name.name) {
            return Some(name.at);
        }
    }
    None
}

/// The place of the first parameter that is one of the names, or a parameter before it.
fn parameter_repeat(names: &[&Name], parameters: &[Name]) -> Option<u32>
    ensures exact { result ≡ repeat_after (bare (named names.now)) (map name_of parameters.now) }
{
    for (k, parameter) in parameters.iter().enumerate() {
        if has_name(names, &parameter.name)
            || place_among(&parameters[..k], &parameter.name).is_some()
        {
            return Some(parameter.at);
        }
    }
    None
}

/// The place of the first parameter of a let that is one of the names, or a parameter before it.
fn repeated_parameter(names: &[&Name], items: &[Item]) -> Option<u32>
    ensures exact { result ≡ parameter_twice (bare (named names.now)) (items_of items.now) }
{
    for item in items {
        if let Item::Let { parameters, .. } = item {
            if let Some(at) = parameter_repeat(names, parameters) {
                return Some(at);
            }
        }
    }
    None
}

/// The place in the text of the name with this number, counted from 0, where there are so many.
#[tactic(auto, using(crate::proofs::Differing::nth_named))]
fn nth_place(names: &[&Name], k: usize) -> Option<u32>
    ensures exact { result ≡ place_at (named names.now) k }
{
    match names.get(k) {
        Some(name) => Some(name.at),
        None => None,
    }
}

/// The place in the text of the state with this number, counted from 0, where there are so many.
#[tactic(auto, using(crate::proofs::Differing::nth_of))]
fn nth_member(members: &[Name], k: usize) -> Option<u32>
    ensures exact { result ≡ place_at (map name_of members.now) k }
{
    match members.get(k) {
        Some(name) => Some(name.at),
        None => None,
    }
}

/// The place of the first 257th state.
fn state_too_many(items: &[Item]) -> Option<u32>
    ensures exact { result ≡ extra_state (items_of items.now) }
{
    for item in items {
        if let Item::States { members, .. } = item {
            if let Some(at) = nth_member(members, MOST_STATES) {
                return Some(at);
            }
        }
    }
    None
}

/// The place of the first of the names that is none of the others.
fn first_stray(others: &[&Name], names: &[&Name]) -> Option<u32>
    ensures exact { result ≡ stray (bare (named others.now)) (named names.now) }
{
    for name in names {
        if !has_name(others, &name.name) {
            return Some(name.at);
        }
    }
    None
}

/// The first of the constants that the caller sets which the model does not have, counted from 0.
fn given_stray(constants: &[&Name], given: &[Given]) -> Option<usize>
    ensures exact { result ≡ unknown_given (bare (named constants.now)) 0 (givens_of given.now) }
{
    for (k, one) in given.iter().enumerate() {
        if !(one.name.as_str() == SEED || has_name(constants, &one.name)) {
            return Some(k);
        }
    }
    None
}

/// The place of the first of these names that is that of the seed.
fn seed_in(names: &[Name]) -> Option<u32>
    ensures exact { result ≡ seed_in (map name_of names.now) }
{
    for name in names {
        if name.name.as_str() == SEED {
            return Some(name.at);
        }
    }
    None
}

/// The place of the first state, or of the let, of an item that has the name of the seed.
fn seed_by(item: &Item) -> Option<u32>
    ensures exact { result ≡ seed_by (item_of item.now) }
{
    match item {
        Item::States { members, .. } => seed_in(members),
        Item::Let { name, .. } => {
            if name.name.as_str() == SEED {
                return Some(name.at);
            }
            None
        }
        Item::Const { .. } | Item::Field { .. } | Item::Next { .. } => None,
    }
}

/// The place of the first state or let that has the name of the seed.
fn seed_taken(items: &[Item]) -> Option<u32>
    ensures exact { result ≡ seed_taken (items_of items.now) }
{
    for item in items {
        if let Some(at) = seed_by(item) {
            return Some(at);
        }
    }
    None
}

/// Of two places the first in the text.
fn earlier(left: Option<u32>, right: Option<u32>) -> Option<u32>
    ensures exact { result ≡ earlier left right }
{
    match (left, right) {
        (Some(left), Some(right)) => Some(left.min(right)),
        (Some(left), None) => Some(left),
        (None, right) => right,
    }
}

/// The place of the first name that is there twice.
fn name_twice(items: &[Item], alloc: Global) -> Result<Option<u32>, AllocError>
    ensures exact { IfOk result (λ at. at ≡ name_twice (items_of items.now)) }
{
    let names = all_names(items, alloc)?;
    let repeat = earlier(first_repeat(&names), repeated_parameter(&names, items));
    Ok(earlier(repeat, seed_taken(items)))
}

/// What is wrong with the names that items give.
fn given_fault(items: &[Item], alloc: Global) -> Result<Option<ExpandFault>, AllocError>
    ensures exact { IfOk result (λ fault. fault ≡ misnamed (items_of items.now)) }
{
    if let Some(at) = state_too_many(items) {
        return Ok(Some(wrong(Cause::TooManyStates, at)));
    }
    match name_twice(items, alloc)? {
        Some(at) => Ok(Some(wrong(Cause::NameTwice, at))),
        None => Ok(None),
    }
}

/// The place of the first name of a kind that one before it equals.
fn repeat_in(kind: NameKind, items: &[Item], alloc: Global) -> Result<Option<u32>, AllocError>
    ensures exact { IfOk result (λ at. at ≡ repeat_after [] (names_as kind (items_of items.now))) }
{
    let names = names_in(kind, items, alloc)?;
    Ok(first_repeat(&names))
}

/// The place of the first name of a kind that is none of those of another.
fn stray_in(
    kind: NameKind,
    known: NameKind,
    items: &[Item],
    alloc: Global,
) -> Result<Option<u32>, AllocError>
    ensures exact { IfOk result (λ at. at ≡ stray (bare (names_as known (items_of items.now))) (names_as kind (items_of items.now))) }
{
    let others = names_in(known, items, alloc)?;
    let names = names_in(kind, items, alloc)?;
    Ok(first_stray(&others, &names))
}

/// The place of the first field that is too many.
fn field_too_many(items: &[Item], alloc: Global) -> Result<Option<u32>, AllocError>
    ensures exact { IfOk result (λ at. at ≡ place_at (names_as kind.Field (items_of items.now)) 8) }
{
    let fields = names_in(NameKind::Field, items, alloc)?;
    Ok(nth_place(&fields, MOST_FIELDS))
}

/// The first of the constants that the caller sets which the model does not have, counted from 0.
fn stray_constant(
    items: &[Item],
    given: &[Given],
    alloc: Global,
) -> Result<Option<usize>, AllocError>
    ensures exact { IfOk result (λ place. place ≡ unknown_given (bare (names_as kind.Constant (items_of items.now))) 0 (givens_of given.now)) }
{
    let constants = names_in(NameKind::Constant, items, alloc)?;
    Ok(given_stray(&constants, given))
}

/// What is wrong with the fields of a model: those that have a next value, and the states that they have.
fn field_fault(items: &[Item], alloc: Global) -> Result<Option<ExpandFault>, AllocError>
    ensures exact { IfOk result (λ fault. fault ≡ misused (names_as kind.Field (items_of items.now)) (items_of items.now)) }
{
    if let Some(at) = repeat_in(NameKind::Target, items, alloc)? {
        return Ok(Some(wrong(Cause::NextTwice, at)));
    }
    if let Some(at) = stray_in(NameKind::Target, NameKind::Field, items, alloc)? {
        return Ok(Some(wrong(Cause::NoField, at)));
    }
    match stray_in(NameKind::StatesUsed, NameKind::States, items, alloc)? {
        Some(at) => Ok(Some(wrong(Cause::UnknownStates, at))),
        None => Ok(None),
    }
}

/// What is wrong with the names of a model, if anything, where the caller sets these constants.
pub fn name_fault(
    items: &[Item],
    given: &[Given],
    alloc: Global,
) -> Result<Option<ExpandFault>, AllocError>
    ensures exact { IfOk result (λ fault. fault ≡ naming_fault (items_of items.now) (givens_of given.now)) }
{
    if let Some(at) = field_too_many(items, alloc)? {
        return Ok(Some(wrong(Cause::TooManyFields, at)));
    }
    if let Some(fault) = given_fault(items, alloc)? {
        return Ok(Some(fault));
    }
    if let Some(fault) = field_fault(items, alloc)? {
        return Ok(Some(fault));
    }
    match stray_constant(items, given, alloc)? {
        Some(place) => Ok(Some(ExpandFault::UnknownGiven { place })),
        None => Ok(None),
    }
}
