//! What constants, states and lets are worth.

ghost use Rattle.std.specs.Prelude.{◌≡◌, ◌≤◌, [], false, IfErr, IfOk, IfSome, None, Some, OnOk, List, ℕ, map, string_bytes};
ghost use Rattle.model_text.specs.View.{item_of, name_of, tree_of};
ghost use Rattle.model_text.specs.Tree.{NameAt, ConstTree, StatesTree, LetTree};
ghost use Rattle.model_rules.specs.Models.{GivenTree, Setting, bare, given_value};
ghost use Rattle.model_rules.specs.Frames.{KnownTree, Means};
ghost use Rattle.model_rules.specs.Expansions.{Tells};
ghost use Rattle.model_rules.specs.ScopeView.{frame_of, known_of, knowns_of, givens_of, later_of, setting_in};
ghost use Rattle.model_rules.specs.Constants.{amount_in};
ghost use Rattle.model_rules.specs.Amounts.{expression_fault, value_fault, body_fault};
ghost use Rattle.std.specs.Option.{option_map};
ghost use Rattle.model_rules.specs.Definitions.{member_fault, member_known, known_let, under, told_fault, told_known};
ghost use Rattle.model_rules.specs.FirstFaults.{IsFirst, fault_in};
ghost use Rattle.model_rules.specs.TermFor.{term_for};
ghost use Rattle.rule_lang.specs.Tree.{depth};
ghost use Rattle.model_rules.specs.TermView.{term_of};
ghost use Rattle.model_rules.specs.Terms.{NumberTerm, lowered};

use crate::amount::amount;
use crate::expand::expression;
use crate::fault::{Cause, ExpandFault, wrong};
use crate::forms::depth_of;
use crate::naming::MOST_STATES;
use crate::room::Room;
use crate::scope::{Given, Known, Scope, place_among};
use crate::term::Term;
use model_text::{Expr, Item, Name};
use std::alloc::{AllocError, Global};

/// The greatest depth of an expression.
const MOST_DEPTH: u32 = 64;

/// The names, without their places.
fn spelled(names: &[Name], alloc: Global) -> Result<Vec<String>, AllocError>
    ensures exact { IfOk result (λ texts. map string_bytes texts.items ≡ bare (map name_of names.now)) }
{
    let mut texts = Vec::new(alloc);
    for name in names {
        texts.push(String::from_str(alloc, &name.name)?)?;
    }
    Ok(texts)
}

/// The value that the caller gives a constant, if there is one.
pub fn given_for(given: &[Given], name: &str) -> Option<u32>
    ensures exact { result ≡ given_value (givens_of given.now) name.now }
{
    for one in given {
        if one.name.as_str() == name {
            return Some(one.value);
        }
    }
    None
}

/// The term of the expression of an item, outside of aggregates, of which 65,536 parts are made at most.
fn item_term(tree: &Expr, at: u32, scope: &Scope, alloc: Global) -> Result<Term, ExpandFault>
    ensures exact { IfOk result (λ t. term_of t ≡ term_for (frame_of scope.now) (tree_of tree.now)) }
    ensures sound { OnOk result (fault_in (frame_of scope.now) (later_of scope.now) false (tree_of tree.now) ≡ None) }
    ensures faultless { OnOk result (expression_fault (frame_of scope.now) (later_of scope.now) (tree_of tree.now) at ≡ None) }
    ensures refused { IfErr result (IsFirst (expression_fault (frame_of scope.now) (later_of scope.now) (tree_of tree.now) at)) }
{
    let mut room = Room::new(alloc, at);
    expression(tree, scope, false, &mut room)
}

/// The value of an expression that is made of numbers, constants and states alone.
#[tactic(auto, using(crate::proofs::Worth::value_by))]
pub fn value_of(body: &Expr, at: u32, scope: &Scope, alloc: Global) -> Result<u32, ExpandFault>
    ensures means { IfOk result (λ v. Means (frame_of scope.now) (tree_of body.now) (NumberTerm v)) }
    ensures exact { IfOk result (λ v. v ≡ amount_in (term_for (frame_of scope.now) (tree_of body.now))) }
    ensures faultless { OnOk result (value_fault (frame_of scope.now) (later_of scope.now) (tree_of body.now) at ≡ None) }
    ensures refused { IfErr result (IsFirst (value_fault (frame_of scope.now) (later_of scope.now) (tree_of body.now) at)) }
{
    let term = item_term(body, at, scope, alloc)?;
    let value = amount(&term, at)?;
    Ok(value)
}

/// The term of an expression outside of aggregates, which is not deeper than 64.
#[tactic(auto, using(crate::proofs::Worth::means_by))]
pub fn shallow_term(tree: &Expr, at: u32, scope: &Scope, alloc: Global) -> Result<Term, ExpandFault>
    ensures means { IfOk result (λ t. Means (frame_of scope.now) (tree_of tree.now) (term_of t)) }
    ensures shallow { IfOk result (λ t. depth (lowered (term_of t)) ≤ 64) }
    ensures exact { IfOk result (λ t. term_of t ≡ term_for (frame_of scope.now) (tree_of tree.now)) }
    ensures faultless { OnOk result (body_fault (frame_of scope.now) (later_of scope.now) (tree_of tree.now) at ≡ None) }
    ensures refused { IfErr result (IsFirst (body_fault (frame_of scope.now) (later_of scope.now) (tree_of tree.now) at)) }
{
    let term = item_term(tree, at, scope, alloc)?;
    if depth_of(&term) > MOST_DEPTH {
        return Err(wrong(Cause::TooDeep, at));
    }
    Ok(term)
}

/// A state is worth its place.
#[tactic(auto, using(crate::proofs::Sound::state_tells))]
fn state_let(
    members: &[Name],
    name: &str,
    at: u32,
    alloc: Global,
) -> Result<Option<Known>, ExpandFault>
    ensures tells { (fields : List (List ℕ)) (lets : List KnownTree) (given : Setting) (own : NameAt) → IfOk result (λ found. IfSome found (λ known.
        Tells fields lets given name.now (StatesTree own (map name_of members.now)) (known_of known))) }
    ensures made { IfOk result (λ found. option_map known_of found ≡ member_known (bare (map name_of members.now)) name.now) }
    ensures faultless { OnOk result (member_fault (bare (map name_of members.now)) name.now at ≡ None) }
    ensures refused { IfErr result (IsFirst (member_fault (bare (map name_of members.now)) name.now at)) }
{
    let Some(k) = place_among(members, name) else {
        return Ok(None);
    };
    if k >= MOST_STATES {
        return Err(wrong(Cause::TooManyStates, at));
    }
    let text = String::from_str(alloc, name)?;
    Ok(Some(Known {
        name: text,
        is_let: false,
        count: 0,
        term: Term::Number(k as u32),
    }))
}

/// What a constant is worth: what the caller gives it, or else its expression.
#[tactic(auto, using(crate::proofs::Sound::const_tells, crate::proofs::Sound::given_tells))]
fn constant_known(
    name: &str,
    own: &Name,
    body: &Expr,
    given: &[Given],
    scope: &Scope,
    alloc: Global,
) -> Result<Known, ExpandFault>
    requires plain { scope.now.parameters.items ≡ [] }
    ensures tells { IfOk result (λ known. Tells (map string_bytes scope.now.fields.items) (knowns_of scope.now.lets.items) (setting_in (givens_of given.now) scope.now) name.now
        (ConstTree (name_of own.now) (tree_of body.now)) (known_of known)) }
    ensures made { IfOk result (λ known. Some (known_of known) ≡ told_known (givens_of given.now) (frame_of scope.now) name.now (ConstTree (name_of own.now) (tree_of body.now))) }
    ensures faultless { OnOk result (told_fault (givens_of given.now) (frame_of scope.now) (later_of scope.now) name.now (ConstTree (name_of own.now) (tree_of body.now)) ≡ None) }
    ensures refused { IfErr result (IsFirst (told_fault (givens_of given.now) (frame_of scope.now) (later_of scope.now) name.now (ConstTree (name_of own.now) (tree_of body.now)))) }
{
    let text = String::from_str(alloc, name)?;
    match given_for(given, name) {
        Some(value) => Ok(Known {
            name: text,
            is_let: false,
            count: 0,
            term: Term::Number(value),
        }),
        None => {
            let value = value_of(body, own.at, scope, alloc)?;
            Ok(Known {
                name: text,
                is_let: false,
                count: 0,
                term: Term::Number(value),
            })
        }
    }
}

/// What a let is worth.
#[tactic(auto, using(crate::proofs::Sound::let_tells))]
fn let_known(
    name: &str,
    own: &Name,
    parameters: &[Name],
    body: &Expr,
    scope: &mut Scope,
    alloc: Global,
) -> Result<Known, ExpandFault>
    ensures lets { scope.new.lets ≡ scope.old.lets }
    ensures fields { scope.new.fields ≡ scope.old.fields }
    ensures draws { scope.new.draws ≡ scope.old.draws }
    ensures later { scope.new.later ≡ scope.old.later }
    ensures tells { (values : List GivenTree) → IfOk result (λ known. Tells (map string_bytes scope.old.fields.items) (knowns_of scope.old.lets.items) (setting_in values scope.old) name.now
        (LetTree (name_of own.now) (map name_of parameters.now) (tree_of body.now)) (known_of known)) }
    ensures made { IfOk result (λ known. known_of known ≡ known_let (frame_of scope.old) name.now (map name_of parameters.now) (tree_of body.now)) }
    ensures faultless { OnOk result (body_fault (under (frame_of scope.old) (bare (map name_of parameters.now))) (later_of scope.old) (tree_of body.now) own.now.at ≡ None) }
    ensures refused { IfErr result (IsFirst (body_fault (under (frame_of scope.old) (bare (map name_of parameters.now))) (later_of scope.old) (tree_of body.now) own.now.at)) }
{
    scope.parameters = spelled(parameters, alloc)?;
    let term = shallow_term(body, own.at, scope, alloc)?;
    let text = String::from_str(alloc, name)?;
    Ok(Known {
        name: text,
        is_let: true,
        count: parameters.len(),
        term,
    })
}

/// What an item tells a name to be worth, where all that it uses is known.
pub fn known_by(
    item: &Item,
    name: &str,
    given: &[Given],
    scope: &mut Scope,
    alloc: Global,
) -> Result<Option<Known>, ExpandFault>
    ensures lets { scope.new.lets ≡ scope.old.lets }
    ensures fields { scope.new.fields ≡ scope.old.fields }
    ensures draws { scope.new.draws ≡ scope.old.draws }
    ensures later { scope.new.later ≡ scope.old.later }
    ensures tells { IfOk result (λ found. IfSome found (λ known.
        Tells (map string_bytes scope.old.fields.items) (knowns_of scope.old.lets.items) (setting_in (givens_of given.now) scope.old) name.now (item_of item.now) (known_of known))) }
    ensures made { IfOk result (λ found. option_map known_of found ≡ told_known (givens_of given.now) (frame_of scope.old) name.now (item_of item.now)) }
    ensures faultless { OnOk result (told_fault (givens_of given.now) (frame_of scope.old) (later_of scope.old) name.now (item_of item.now) ≡ None) }
    ensures refused { IfErr result (IsFirst (told_fault (givens_of given.now) (frame_of scope.old) (later_of scope.old) name.now (item_of item.now))) }
{
    match item {
        Item::Const { name: own, value } => {
            scope.parameters = Vec::new(alloc);
            let known = constant_known(name, own, value, given, scope, alloc)?;
            Ok(Some(known))
        }
        Item::States { name: own, members } => state_let(members, name, own.at, alloc),
        Item::Let {
            name: own,
            parameters,
            body,
        } => {
            let known = let_known(name, own, parameters, body, scope, alloc)?;
            Ok(Some(known))
        }
        Item::Field { .. } | Item::Next { .. } => Ok(None),
    }
}
