//! The rules of a model's items.

ghost use Rattle.std.specs.Prelude.{◌≡◌, ◌++◌, ◌∷◌, [], None, IfErr, IfOk, OnOk, IfSome, List, map, string_bytes};
ghost use Rattle.std.specs.List.{AllByRecursion};
ghost use Rattle.std.specs.Option.{option_map};
ghost use Rattle.rule_lang.specs.View.{item_of as rule_item, items_of as rules_of, tree_of as rule_tree};
ghost use Rattle.model_text.specs.View.{items_of, item_of, name_of, tree_of};
ghost use Rattle.model_rules.specs.Bounds.{IsFit, IsFitRule, IsWithin};
ghost use Rattle.model_rules.specs.Counts.{IsCounted};
ghost use Rattle.model_rules.specs.Expansions.{Expands, IsBodyOf, IsRuleOf};
ghost use Rattle.model_text.specs.Tree.{ItemTree};
ghost use Rattle.model_rules.specs.Models.{is_state, states_count};
ghost use Rattle.model_rules.specs.Faults.{name_place, rule_for, next_fault, rule_fault, rules_made, item_fault, items_fault};
ghost use Rattle.model_rules.specs.FirstFaults.{IsFirst};
ghost use Rattle.model_rules.specs.ScopeView.{frame_of, later_of};
ghost use Rattle.model_rules.specs.TermFor.{term_for};
ghost use Rattle.model_rules.specs.Terms.{lowered};

use crate::expansion::Expansion;
use crate::fault::{Cause, ExpandFault, wrong};
use crate::forms::check_form;
use crate::known::{shallow_term, value_of};
use crate::lower::lower;
use crate::scope::Scope;
use model_text::{Expr, Item, Name};
use rule_lang::{Expr as Body, Item as Rule};
use std::alloc::Global;

/// How many states share a name, where there are such.
fn count_states(items: &[Item], name: &str) -> Option<usize>
    ensures exact { result ≡ states_count (items_of items.now) name.now }
{
    for item in items {
        if let Item::States {
            name: shared,
            members,
        } = item
        {
            if shared.name.as_str() == name {
                return Some(members.len());
            }
        }
    }
    None
}

/// Whether an initial value is one of a field's states, where it has some.
fn is_of_states(items: &[Item], states: &Option<Name>, value: u32) -> bool
    ensures exact { result ≡ is_state (items_of items.now) (option_map name_of states.now) value }
{
    match states {
        None => true,
        Some(shared) => match count_states(items, &shared.name) {
            None => false,
            Some(count) => (value as usize) < count,
        },
    }
}

/// The expression of a next value.
fn body_for(tree: &Expr, at: u32, scope: &Scope, alloc: Global) -> Result<Body, ExpandFault>
    ensures means { IfOk result (λ e. IsBodyOf (frame_of scope.now) (tree_of tree.now) (rule_tree e)) }
    ensures fit { IfOk result (λ e. IsFit (map string_bytes scope.now.fields.items) (rule_tree e)) }
    ensures exact { IfOk result (λ e. rule_tree e ≡ lowered (term_for (frame_of scope.now) (tree_of tree.now))) }
    ensures faultless { OnOk result (next_fault (frame_of scope.now) (later_of scope.now) (tree_of tree.now) at ≡ None) }
    ensures refused { IfErr result (IsFirst (next_fault (frame_of scope.now) (later_of scope.now) (tree_of tree.now) at)) }
{
    let term = shallow_term(tree, at, scope, alloc)?;
    let body = lower(&term, alloc)?;
    check_form(&body, &scope.fields, at)?;
    Ok(body)
}

/// The rule of an item, if it has one.
fn rule_of(
    item: &Item,
    items: &[Item],
    scope: &Scope,
    alloc: Global,
) -> Result<Option<Rule>, ExpandFault>
    ensures exact { IfOk result (λ found. IsRuleOf (items_of items.now) (frame_of scope.now) (item_of item.now) (option_map rule_item found)) }
    ensures fit { IfOk result (λ found. IfSome found (λ rule. IsFitRule (map string_bytes scope.now.fields.items) (rule_item rule))) }
    ensures made { IfOk result (λ found. option_map rule_item found ≡ rule_for (frame_of scope.now) (item_of item.now)) }
    ensures faultless { OnOk result (rule_fault (items_of items.now) (frame_of scope.now) (later_of scope.now) (item_of item.now) ≡ None) }
    ensures refused { IfErr result (IsFirst (rule_fault (items_of items.now) (frame_of scope.now) (later_of scope.now) (item_of item.now))) }
{
    match item {
        Item::Field {
            name,
            states,
            initial,
        } => {
            let value = value_of(initial, name.at, scope, alloc)?;
            if !is_of_states(items, states, value) {
                return Err(wrong(Cause::NoState, name.at));
            }
            let text = String::from_str(alloc, &name.name)?;
            Ok(Some(Rule::Field { name: text, value }))
        }
        Item::Next { name, body } => {
            let body = body_for(body, name.at, scope, alloc)?;
            let text = String::from_str(alloc, &name.name)?;
            Ok(Some(Rule::Next { name: text, body }))
        }
        Item::Const { .. } | Item::States { .. } | Item::Let { .. } => Ok(None),
    }
}

/// The place of the name that an item begins with.
fn item_place(item: &Item) -> u32
    ensures exact { result ≡ name_place (item_of item.now) }
{
    match item {
        Item::Const { name, .. }
        | Item::States { name, .. }
        | Item::Field { name, .. }
        | Item::Let { name, .. }
        | Item::Next { name, .. } => name.at,
    }
}

/// Adds the rule of an item, if it has one.
fn add_rule(
    expansion: &mut Expansion,
    item: &Item,
    items: &[Item],
    scope: &Scope,
    alloc: Global,
) -> Result<(), ExpandFault>
    ensures expands { (before : List ItemTree) → Expands (items_of items.now) (frame_of scope.now) before (rules_of expansion.old.rules.items)
        → OnOk result (Expands (items_of items.now) (frame_of scope.now) (before ++ item_of item.now ∷ []) (rules_of expansion.new.rules.items)) }
    ensures fit { AllByRecursion (IsFitRule (map string_bytes scope.now.fields.items)) (rules_of expansion.old.rules.items)
        → OnOk result (AllByRecursion (IsFitRule (map string_bytes scope.now.fields.items)) (rules_of expansion.new.rules.items)) }
    ensures counted { IsCounted expansion.old → OnOk result (IsCounted expansion.new) }
    ensures made { (before : List ItemTree) → rules_of expansion.old.rules.items ≡ rules_made (frame_of scope.now) before
        → OnOk result (rules_of expansion.new.rules.items ≡ rules_made (frame_of scope.now) (before ++ item_of item.now ∷ [])) }
    ensures faultless { (before : List ItemTree) → rules_of expansion.old.rules.items ≡ rules_made (frame_of scope.now) before → IsCounted expansion.old
        → OnOk result (item_fault (items_of items.now) (frame_of scope.now) (later_of scope.now) before (item_of item.now) ≡ None) }
    ensures refused { (before : List ItemTree) → rules_of expansion.old.rules.items ≡ rules_made (frame_of scope.now) before → IsCounted expansion.old
        → IfErr result (IsFirst (item_fault (items_of items.now) (frame_of scope.now) (later_of scope.now) before (item_of item.now))) }
{
    let found = rule_of(item, items, scope, alloc)?;
    let Some(rule) = found else {
        return Ok(());
    };
    expansion.add(rule, item_place(item), alloc)?;
    Ok(())
}

/// The rules of a model's items, in order.
pub fn rules_for(items: &[Item], scope: &Scope, alloc: Global) -> Result<Vec<Rule>, ExpandFault>
    ensures expands { IfOk result (λ rules. Expands (items_of items.now) (frame_of scope.now) (items_of items.now) (rules_of rules.items)) }
    ensures fit { IfOk result (λ rules. AllByRecursion (IsFitRule (map string_bytes scope.now.fields.items)) (rules_of rules.items)) }
    ensures within { IfOk result (λ rules. IsWithin (rules_of rules.items)) }
    ensures made { IfOk result (λ rules. rules_of rules.items ≡ rules_made (frame_of scope.now) (items_of items.now)) }
    ensures faultless { OnOk result (items_fault (items_of items.now) (frame_of scope.now) (later_of scope.now) [] (items_of items.now) ≡ None) }
    ensures refused { IfErr result (IsFirst (items_fault (items_of items.now) (frame_of scope.now) (later_of scope.now) [] (items_of items.now))) }
{
    let mut expansion = Expansion::new(alloc);
    for item in items {
        add_rule(&mut expansion, item, items, scope, alloc)?;
    }
    Ok(expansion.rules)
}
