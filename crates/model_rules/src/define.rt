//! Constants, states and lets, in an order in which each uses those before it.

ghost use Rattle.std.specs.Prelude.{◌≡◌, ◌∷◌, [], IfErr, IfOk, IfSome, IsNone, OnOk, false, None, Some, is_some, List, ℕ, map, string_bytes};
ghost use Rattle.std.specs.Option.{option_map};
ghost use Rattle.model_rules.specs.Refusals.{let_for};
ghost use Rattle.model_rules.specs.Definitions.{IsLooked, IsPassed, definition_of, names_defined, fault_of, stopping, is_ring, stop_along, settled, defining_fault, seed_first};
ghost use Rattle.model_rules.specs.FirstFaults.{IsFirst};
ghost use Rattle.model_rules.specs.Terms.{NumberTerm};
ghost use Rattle.model_text.specs.View.{items_of, item_of};
ghost use Rattle.model_rules.specs.Models.{given_or, given_value, names_it};
ghost use Rattle.model_rules.specs.Meaning.{seed_name};
ghost use Rattle.model_rules.specs.Expansions.{Finds, IsLeftOut, AreStable};
ghost use Rattle.model_rules.specs.ScopeView.{IsScopeOf, knowns_of, givens_of, setting_in};

use crate::fault::{Cause, ExpandFault};
use crate::known::{given_for, known_by};
use crate::scope::{Given, Known, Scope, let_of, place_among};
use crate::term::Term;
use model_text::Item;
use std::alloc::{AllocError, Global};

/// Whether the item defines this name.
fn defines(item: &Item, name: &str) -> bool
    ensures exact { result ≡ names_it (item_of item.now) name.now }
{
    match item {
        Item::Const { name: own, .. } => own.name.as_str() == name,
        Item::Let { name: own, .. } => own.name.as_str() == name,
        Item::States { members, .. } => place_among(members, name).is_some(),
        Item::Field { .. } | Item::Next { .. } => false,
    }
}

/// The first item that defines this name.
#[tactic(auto, using(crate::proofs::Sound::finds_first))]
fn definition<'a>(items: &'a [Item], name: &str) -> Option<&'a Item>
    ensures finds { IfSome result (λ item. Finds (items_of items.now) name.now (item_of item.now)) }
    ensures none { IsNone result → IsLeftOut (items_of items.now) name.now }
    ensures first { option_map (λ item. item_of item.now) result ≡ definition_of (items_of items.now) name.now }
{
    for item in items {
        if defines(item, name) {
            return Some(item);
        }
    }
    None
}

/// Whether a name of an item is that of something that is not known yet.
fn lacks(fault: &ExpandFault) -> bool
    ensures exact { result ≡ is_ring fault.now }
{
    match fault {
        ExpandFault::At { cause, .. } => matches!(cause, Cause::Ring),
        ExpandFault::UnknownGiven { .. } | ExpandFault::Memory => false,
    }
}

/// Adds what a name that is not known is worth, or tells what its definition lacks.
#[tactic(auto, using(crate::proofs::Sound::stable_more))]
fn define(
    name: &str,
    items: &[Item],
    given: &[Given],
    scope: &mut Scope,
    alloc: Global,
) -> Result<Option<ExpandFault>, ExpandFault>
    ensures fields { scope.new.fields ≡ scope.old.fields }
    ensures draws { scope.new.draws ≡ scope.old.draws }
    ensures later { scope.new.later ≡ scope.old.later }
    ensures stable { AreStable (items_of items.now) (setting_in (givens_of given.now) scope.old) (map string_bytes scope.old.fields.items) (knowns_of scope.old.lets.items)
        → AreStable (items_of items.now) (setting_in (givens_of given.now) scope.old) (map string_bytes scope.old.fields.items) (knowns_of scope.new.lets.items) }
    ensures looked { IsScopeOf (items_of items.now) scope.old → let_for (knowns_of scope.old.lets.items) name.now ≡ None
        → IfOk result (λ found. IsLooked (items_of items.now) (givens_of given.now) (knowns_of scope.old.lets.items) name.now found (knowns_of scope.new.lets.items)) }
    ensures refused { IsScopeOf (items_of items.now) scope.old → let_for (knowns_of scope.old.lets.items) name.now ≡ None
        → IfErr result (IsFirst (stopping (fault_of (items_of items.now) (givens_of given.now) (knowns_of scope.old.lets.items) name.now))) }
{
    let Some(item) = definition(items, name) else {
        return Ok(None);
    };
    match known_by(item, name, given, scope, alloc) {
        Ok(Some(known)) => {
            scope.lets.push(known)?;
            Ok(None)
        }
        Ok(None) => Ok(None),
        Err(fault) => {
            if lacks(&fault) {
                Ok(Some(fault))
            } else {
                Err(fault)
            }
        }
    }
}

/// Whether a name is known.
fn is_known(lets: &[Known], name: &str) -> bool
    ensures exact { result ≡ is_some (let_for (knowns_of lets.now) name.now) }
{
    let_of(lets, name).is_some()
}

/// Looks at a name: adds what it is worth where it is not known, or tells what its definition lacks.
fn look(
    name: &str,
    items: &[Item],
    given: &[Given],
    scope: &mut Scope,
    alloc: Global,
) -> Result<Option<ExpandFault>, ExpandFault>
    ensures fields { scope.new.fields ≡ scope.old.fields }
    ensures draws { scope.new.draws ≡ scope.old.draws }
    ensures later { scope.new.later ≡ scope.old.later }
    ensures stable { AreStable (items_of items.now) (setting_in (givens_of given.now) scope.old) (map string_bytes scope.old.fields.items) (knowns_of scope.old.lets.items)
        → AreStable (items_of items.now) (setting_in (givens_of given.now) scope.old) (map string_bytes scope.old.fields.items) (knowns_of scope.new.lets.items) }
    ensures looked { IsScopeOf (items_of items.now) scope.old
        → IfOk result (λ found. IsLooked (items_of items.now) (givens_of given.now) (knowns_of scope.old.lets.items) name.now found (knowns_of scope.new.lets.items)) }
    ensures refused { IsScopeOf (items_of items.now) scope.old
        → IfErr result (IsFirst (stopping (fault_of (items_of items.now) (givens_of given.now) (knowns_of scope.old.lets.items) name.now))) }
{
    if is_known(&scope.lets, name) {
        return Ok(None);
    }
    define(name, items, given, scope, alloc)
}

/// Looks at names one by one. Answers what the last of those lacks that do not become known.
fn define_some(
    names: &[String],
    items: &[Item],
    given: &[Given],
    scope: &mut Scope,
    alloc: Global,
) -> Result<Option<ExpandFault>, ExpandFault>
    ensures fields { scope.new.fields ≡ scope.old.fields }
    ensures draws { scope.new.draws ≡ scope.old.draws }
    ensures later { scope.new.later ≡ scope.old.later }
    ensures stable { AreStable (items_of items.now) (setting_in (givens_of given.now) scope.old) (map string_bytes scope.old.fields.items) (knowns_of scope.old.lets.items)
        → AreStable (items_of items.now) (setting_in (givens_of given.now) scope.old) (map string_bytes scope.old.fields.items) (knowns_of scope.new.lets.items) }
    ensures passed { IsScopeOf (items_of items.now) scope.old
        → IfOk result (λ found. IsPassed (items_of items.now) (givens_of given.now) (knowns_of scope.old.lets.items) (map string_bytes names.now) found (knowns_of scope.new.lets.items)) }
    ensures refused { IsScopeOf (items_of items.now) scope.old
        → IfErr result (IsFirst (stop_along (items_of items.now) (givens_of given.now) (knowns_of scope.old.lets.items) (map string_bytes names.now))) }
{
    let mut lacking = None;
    for name in names {
        let found = look(name, items, given, scope, alloc)?;
        lacking = found.or(lacking);
    }
    Ok(lacking)
}

/// Nothing is lacking.
fn check_none(lacking: Option<ExpandFault>) -> Result<(), ExpandFault>
    ensures none { OnOk result (lacking ≡ None) }
    ensures refused { IfErr result (λ fault. lacking ≡ Some fault) }
{
    match lacking {
        Some(fault) => Err(fault),
        None => Ok(()),
    }
}

/// Adds all constants, states and lets, in an order in which each uses those before it.
pub fn define_all(
    names: &[String],
    items: &[Item],
    given: &[Given],
    scope: &mut Scope,
    alloc: Global,
) -> Result<(), ExpandFault>
    ensures fields { scope.new.fields ≡ scope.old.fields }
    ensures draws { scope.new.draws ≡ scope.old.draws }
    ensures later { scope.new.later ≡ scope.old.later }
    ensures stable { AreStable (items_of items.now) (setting_in (givens_of given.now) scope.old) (map string_bytes scope.old.fields.items) (knowns_of scope.old.lets.items)
        → AreStable (items_of items.now) (setting_in (givens_of given.now) scope.old) (map string_bytes scope.old.fields.items) (knowns_of scope.new.lets.items) }
    ensures known { IsScopeOf (items_of items.now) scope.old → map string_bytes names.now ≡ names_defined (items_of items.now)
        → OnOk result (knowns_of scope.new.lets.items ≡ settled (items_of items.now) (givens_of given.now) (knowns_of scope.old.lets.items)) }
    ensures faultless { IsScopeOf (items_of items.now) scope.old → map string_bytes names.now ≡ names_defined (items_of items.now)
        → OnOk result (defining_fault (items_of items.now) (givens_of given.now) (knowns_of scope.old.lets.items) ≡ None) }
    ensures refused { IsScopeOf (items_of items.now) scope.old → map string_bytes names.now ≡ names_defined (items_of items.now)
        → IfErr result (IsFirst (defining_fault (items_of items.now) (givens_of given.now) (knowns_of scope.old.lets.items))) }
{
    let mut lacking = None;
    for round in 0..names.len() {
        let before = scope.lets.len();
        let found = define_some(names, items, given, scope, alloc)?;
        lacking = found;
        if scope.lets.len() == before {
            return check_none(lacking);
        }
    }
    check_none(lacking)
}

/// The seed of a model that does not define it: what the caller gives it, or else 0.
fn seed_given(given: &[Given]) -> u32
    ensures exact { result ≡ given_or (given_value (givens_of given.now) seed_name) 0 }
{
    match given_for(given, "seed") {
        Some(value) => value,
        None => 0,
    }
}

/// The seed as a let without parameters, alone.
fn seed_let(given: &[Given], alloc: Global) -> Result<Vec<Known>, AllocError>
    ensures known { IfOk result (λ lets. knowns_of lets.items
        ≡ record { name = seed_name; is_let = false; count = 0; term = NumberTerm (given_or (given_value (givens_of given.now) seed_name) 0) } ∷ []) }
{
    let name = String::from_str(alloc, "seed")?;
    let term = Term::Number(seed_given(given));
    let mut lets = Vec::new(alloc);
    lets.push(Known {
        name,
        is_let: false,
        count: 0,
        term,
    })?;
    Ok(lets)
}

/// What is known before any item is looked at: the seed, where no item defines it.
#[tactic(auto, using(crate::proofs::Sound::seed_stable, crate::proofs::Sound::stable_none))]
pub fn seed_lets(items: &[Item], given: &[Given], alloc: Global) -> Result<Vec<Known>, AllocError>
    ensures first { IfOk result (λ lets. knowns_of lets.items ≡ seed_first (items_of items.now) (givens_of given.now)) }
    ensures stable { (draws : List ℕ) (fields : List (List ℕ)) → IfOk result (λ lets.
        AreStable (items_of items.now) (record { values = givens_of given.now; draws = draws }) fields (knowns_of lets.items)) }
{
    match definition(items, "seed") {
        Some(_) => Ok(Vec::new(alloc)),
        None => {
            let lets = seed_let(given, alloc)?;
            Ok(lets)
        }
    }
}
