//! The tests that a well-formed program passes.

ghost use Rattle.std.specs.Prelude.{◌≡◌, ◌≤◌, ◌<◌, min, length, map, IfOk, IfSome, is_some, Some, None, if◌then◌else◌};
ghost use Rattle.std.specs.List.{list_any, filter_map};
ghost use Rattle.std.specs.Option.{option_copied};
ghost use Rattle.rule_lang.specs.View.{tree_of, item_of, items_of};
ghost use Rattle.rule_check.specs.Value.{parts, place};
ghost use Rattle.rule_check.specs.WellFormed.{is_among, has_twice, names_unknown, looks_outside, nests, is_unknown, all_parts};
ghost use Rattle.rule_check.specs.Items.{fields_of, nexts_of};
ghost use Rattle.rule_check.specs.Table.{M};
ghost use Rattle.rule_check.specs.Fields.{field_names};
ghost use Rattle.rule_check.specs.Causes.{first_next, IsRepeat};
ghost use Rattle.rule_check.specs.Searches.{naming_of};

use crate::parts::Field;
use rule_lang::{Expr, Item};
use std::alloc::{AllocError, Global};
use std::collections::BTreeMap;

/// The place of a name among the fields, or their number where it isn't there.
pub fn place_of(fields: &[Field], name: &str) -> usize
    ensures value { result ≡ place (field_names fields.now) name.now }
    ensures within { result ≤ length fields.now }
{
    for (k, field) in fields.iter().enumerate() {
        if field.name.is(name) {
            return k;
        }
    }
    fields.len()
}

/// Whether a field has this name.
pub fn declares(fields: &[Field], name: &str) -> bool
    ensures exact { result ≡ is_among (field_names fields.now) name.now }
{
    place_of(fields, name) < fields.len()
}

/// Whether two fields have one name.
pub fn repeats(fields: &[Field]) -> bool
    ensures exact { result ≡ has_twice (field_names fields.now) }
{
    for (k, field) in fields.iter().enumerate() {
        if declares(&fields[k + 1..], field.name.as_str()) {
            return true;
        }
    }
    false
}

/// Which items a search is for.
#[derive(Clone, Copy)]
pub enum ItemKind {
    /// `field` items.
    Field,
    /// `next` items.
    Next,
}

/// An item with the name of an earlier one, both by their numbers.
#[derive(Clone, Copy)]
pub struct Repeat {
    pub item: usize,
    pub earlier: usize,
}

/// The name of an item of this kind.
fn name_of(kind: ItemKind, item: &Item) -> Option<&str>
    ensures exact { option_copied result ≡ naming_of kind (item_of item.now) }
{
    match item {
        Item::Field { name, .. } => match kind {
            ItemKind::Field => Some(name.as_str()),
            ItemKind::Next => None,
        },
        Item::Next { name, .. } => match kind {
            ItemKind::Field => None,
            ItemKind::Next => Some(name.as_str()),
        },
    }
}

/// The first item of this kind with the name of an earlier one.
pub fn first_repeat(
    alloc: Global,
    kind: ItemKind,
    items: &[Item],
) -> Result<Option<Repeat>, AllocError>
    ensures found { IfOk result (λ repeat. is_some repeat ≡ has_twice (filter_map (naming_of kind) (items_of items.now))) }
    ensures named { IfOk result (λ repeat. IfSome repeat (λ r. IsRepeat (naming_of kind) (items_of items.now) r.item r.earlier)) }
{
    let mut seen = BTreeMap::new(alloc);
    for (k, item) in items.iter().enumerate() {
        if let Some(name) = name_of(kind, item) {
            if let Some(earlier) = seen.insert(name, k)? {
                return Ok(Some(Repeat { item: k, earlier }));
            }
        }
    }
    Ok(None)
}

/// Whether two next items have one name.
pub fn assigns_twice(alloc: Global, items: &[Item]) -> Result<bool, AllocError>
    ensures exact { IfOk result (λ twice. twice ≡ has_twice (map (λ n. n.name) (nexts_of (items_of items.now)))) }
{
    let repeat = first_repeat(alloc, ItemKind::Next, items)?;
    Ok(repeat.is_some())
}

/// Whether the expression has a name that is no field's.
fn unknown_in(fields: &[Field], e: &Expr) -> bool
    ensures exact { result ≡ names_unknown (field_names fields.now) (tree_of e.now) }
{
    match e {
        Expr::Number(_) | Expr::Id | Expr::Degree | Expr::Round | Expr::NearId | Expr::NearWeight =>
            false,
        Expr::Own(name) => !declares(fields, name.as_str()),
        Expr::Near(name) => !declares(fields, name.as_str()),
        Expr::Infix(_, a, b) => unknown_in(fields, a) || unknown_in(fields, b),
        Expr::Not(e) => unknown_in(fields, e),
        Expr::Over(_, e) => unknown_in(fields, e),
        Expr::Choice(a, b, c) => {
            unknown_in(fields, a) || unknown_in(fields, b) || unknown_in(fields, c)
        }
    }
}

/// Whether the expression names a neighbour outside of an aggregate.
fn outside_in(e: &Expr) -> bool
    ensures exact { result ≡ looks_outside (tree_of e.now) }
{
    match e {
        Expr::Number(_) | Expr::Own(_) | Expr::Id | Expr::Degree | Expr::Round | Expr::Over(_, _) =>
            false,
        Expr::Near(_) | Expr::NearId | Expr::NearWeight => true,
        Expr::Infix(_, a, b) => outside_in(a) || outside_in(b),
        Expr::Not(e) => outside_in(e),
        Expr::Choice(a, b, c) => outside_in(a) || outside_in(b) || outside_in(c),
    }
}

/// How many aggregates the expression has, those inside of others aside, as far as a word counts.
pub fn count_in(e: &Expr) -> u32
    ensures exact { result ≡ min (length (parts (tree_of e.now))) M }
{
    match e {
        Expr::Over(_, _) => 1,
        Expr::Infix(_, a, b) => count_in(a).saturating_add(count_in(b)),
        Expr::Not(e) => count_in(e),
        Expr::Choice(a, b, c) => {
            count_in(a).saturating_add(count_in(b).saturating_add(count_in(c)))
        }
        Expr::Number(_)
        | Expr::Own(_)
        | Expr::Id
        | Expr::Degree
        | Expr::Round
        | Expr::Near(_)
        | Expr::NearId
        | Expr::NearWeight => 0,
    }
}

/// Whether an aggregate stands in an aggregate.
fn nests_in(e: &Expr) -> bool
    ensures exact { result ≡ nests (tree_of e.now) }
{
    match e {
        Expr::Number(_)
        | Expr::Own(_)
        | Expr::Id
        | Expr::Degree
        | Expr::Round
        | Expr::Near(_)
        | Expr::NearId
        | Expr::NearWeight => false,
        Expr::Over(_, e) => count_in(e) > 0,
        Expr::Infix(_, a, b) => nests_in(a) || nests_in(b),
        Expr::Not(e) => nests_in(e),
        Expr::Choice(a, b, c) => nests_in(a) || nests_in(b) || nests_in(c),
    }
}

/// The number of the first next item with a name that is no field's.
pub fn first_unknown(fields: &[Field], items: &[Item]) -> Option<usize>
    ensures exact { result ≡ first_next (is_unknown (field_names fields.now)) (items_of items.now) }
    ensures within { IfSome result (λ k. k < length items.now) }
{
    for (k, item) in items.iter().enumerate() {
        if let Item::Next { name, body } = item {
            if !declares(fields, name.as_str()) || unknown_in(fields, body) {
                return Some(k);
            }
        }
    }
    None
}

/// Whether a next item has a name that is no field's.
pub fn some_unknown(fields: &[Field], items: &[Item]) -> bool
    ensures exact { result ≡ list_any (is_unknown (field_names fields.now)) (nexts_of (items_of items.now)) }
{
    first_unknown(fields, items).is_some()
}

/// The number of the first next item whose expression names a neighbour outside of an aggregate.
pub fn first_outside(items: &[Item]) -> Option<usize>
    ensures exact { result ≡ first_next (λ n. looks_outside n.body) (items_of items.now) }
{
    for (k, item) in items.iter().enumerate() {
        if let Item::Next { body, .. } = item {
            if outside_in(body) {
                return Some(k);
            }
        }
    }
    None
}

/// Whether an expression names a neighbour outside of an aggregate.
pub fn some_outside(items: &[Item]) -> bool
    ensures exact { result ≡ list_any (λ n. looks_outside n.body) (nexts_of (items_of items.now)) }
{
    first_outside(items).is_some()
}

/// The number of the first next item in whose expression an aggregate stands in an aggregate.
pub fn first_nest(items: &[Item]) -> Option<usize>
    ensures exact { result ≡ first_next (λ n. nests n.body) (items_of items.now) }
{
    for (k, item) in items.iter().enumerate() {
        if let Item::Next { body, .. } = item {
            if nests_in(body) {
                return Some(k);
            }
        }
    }
    None
}

/// Whether an aggregate stands in an aggregate.
pub fn some_nest(items: &[Item]) -> bool
    ensures exact { result ≡ list_any (λ n. nests n.body) (nexts_of (items_of items.now)) }
{
    first_nest(items).is_some()
}

/// How many aggregates all expressions have, as far as a word counts.
pub fn count_all(items: &[Item]) -> u32
    ensures exact { result ≡ min (length (all_parts (nexts_of (items_of items.now)))) M }
{
    let mut count = 0u32;
    for item in items {
        if let Item::Next { body, .. } = item {
            count = count.saturating_add(count_in(body));
        }
    }
    count
}

/// The place of the field of this name.
pub fn index_of(fields: &[Field], name: &str) -> Option<u32>
    requires few { length fields.now ≤ 8 }
    ensures exact { result ≡ (if is_among (field_names fields.now) name.now then Some (place (field_names fields.now) name.now) else None) }
{
    let place = place_of(fields, name);
    if place < fields.len() {
        Some(place as u32)
    } else {
        None
    }
}

/// How many fields the items declare.
pub fn count_fields(items: &[Item]) -> usize
    ensures exact { result ≡ length (fields_of (items_of items.now)) }
{
    let mut count = 0;
    for item in items {
        if let Item::Field { .. } = item {
            count += 1;
        }
    }
    count
}
