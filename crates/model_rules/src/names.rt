//! Terms of names.

ghost use Rattle.std.specs.Prelude.{◌≡◌, ◌+◌, ◌&&◌, ◌||◌, IfErr, IfOk, OnOk, Some, None, Err, true, false, length, map, string_bytes};
ghost use Rattle.std.specs.List.{list_any};
ghost use Rattle.model_rules.specs.TermView.{term_of, terms_of};
ghost use Rattle.model_rules.specs.Terms.{looks, gathers, filled, seen_near};
ghost use Rattle.model_rules.specs.TermFor.{let_term, named_term, near_named_term};
ghost use Rattle.model_rules.specs.ScopeView.{frame_of, known_of, knowns_of, later_of};
ghost use Rattle.model_rules.specs.declared.fault.Cause.{Cause};
ghost use Rattle.model_rules.specs.declared.fault.Cause.TheVariants.{NeighbourOutside};
ghost use Rattle.model_rules.specs.declared.fault.ExpandFault.TheVariants.{At};
ghost use Rattle.model_rules.specs.FirstFaults.{IsFirst, told_at};
ghost use Rattle.model_rules.specs.Parts.{size, filled_parts, let_parts, name_parts, near_parts, unless_wrong, bounded};
ghost use Rattle.model_rules.specs.Refusals.{item_at, parts_left, let_for, unknown_cause, put_cause, seen_cause, apply_cause, call_cause, name_cause, near_cause};
ghost use Rattle.rule_check.specs.WellFormed.{is_among};

use crate::fault::{Cause, ExpandFault, wrong};
use crate::fill::fill;
use crate::room::Room;
use crate::scope::{Known, Scope, let_of, place_of};
use crate::seen::seen;
use crate::term::Term;
use crate::tests::{has_aggregate, looks_outside, needs_neighbours};

/// A form of the neighbour stands in an aggregate.
pub fn inside_only(inside: bool, at: u32) -> Result<(), ExpandFault>
    ensures ok { OnOk result (inside ≡ true) }
    ensures refused { IfErr result (λ fault. (inside ≡ false) × (fault ≡ At NeighbourOutside at)) }
{
    if inside {
        Ok(())
    } else {
        Err(wrong(Cause::NeighbourOutside, at))
    }
}

/// Whether one of the terms names the neighbour outside of an aggregate.
fn some_looks(terms: &[Term]) -> bool
    ensures exact { result ≡ list_any looks (terms_of terms.now) }
{
    for term in terms {
        if looks_outside(term) {
            return true;
        }
    }
    false
}

/// Whether an aggregate of the let would stand in one, or an argument that names the neighbour.
fn clashes(term: &Term, arguments: &[Term], inside: bool) -> bool
    ensures exact { result ≡ (gathers (term_of term.now) && (inside || list_any looks (terms_of arguments.now))) }
{
    has_aggregate(term) && (inside || some_looks(arguments))
}

/// Why a let is not put in with these arguments, if it is not.
fn put_in_cause(known: &Known, arguments: &[Term], inside: bool) -> Option<Cause>
    ensures exact { result ≡ put_cause (known_of known.now) (length arguments.now) (inside || list_any looks (terms_of arguments.now)) }
{
    if known.count != arguments.len() {
        return Some(Cause::WrongCount);
    }
    if looks_outside(&known.term) {
        return Some(Cause::NeighbourOutside);
    }
    if clashes(&known.term, arguments, inside) {
        return Some(Cause::NestedAggregate);
    }
    None
}

/// The term of a let with these arguments.
#[tactic(auto, using(crate::proofs::Parts::told_put, crate::proofs::Parts::told_unput))]
fn put_in(
    known: &Known,
    arguments: &[Term],
    at: u32,
    inside: bool,
    room: &mut Room,
) -> Result<Term, ExpandFault>
    ensures exact { IfOk result (λ t. term_of t ≡ filled (terms_of arguments.now) (term_of known.now.term)) }
    ensures item { item_at room.new ≡ item_at room.old }
    ensures at_once { (cause : Cause) → put_cause (known_of known.now) (length arguments.now) (inside || list_any looks (terms_of arguments.now)) ≡ Some cause → result ≡ Err (At cause at) }
    ensures faultless { OnOk result (put_cause (known_of known.now) (length arguments.now) (inside || list_any looks (terms_of arguments.now)) ≡ None) }
    ensures taken { OnOk result (parts_left room.new + unless_wrong (put_cause (known_of known.now) (length arguments.now) (inside || list_any looks (terms_of arguments.now))) (filled_parts (terms_of arguments.now) (term_of known.now.term)) ≡ parts_left room.old) }
    ensures refused { IfErr result (IsFirst (bounded room.old (unless_wrong (put_cause (known_of known.now) (length arguments.now) (inside || list_any looks (terms_of arguments.now))) (filled_parts (terms_of arguments.now) (term_of known.now.term))) (told_at at (put_cause (known_of known.now) (length arguments.now) (inside || list_any looks (terms_of arguments.now)))))) }
{
    match put_in_cause(known, arguments, inside) {
        Some(cause) => Err(wrong(cause, at)),
        None => fill(&known.term, arguments, room),
    }
}

/// What is wrong with a name that is not known: it is that of a later let, or of nothing.
fn unknown(name: &str, at: u32, scope: &Scope, cause: Cause) -> ExpandFault
    ensures exact { result ≡ At (unknown_cause (later_of scope.now) name.now cause) at }
{
    match place_of(&scope.later, name) {
        Some(_) => wrong(Cause::Ring, at),
        None => wrong(cause, at),
    }
}

/// The term of a name.
#[tactic(auto, using(crate::proofs::Refused::name_parameter, crate::proofs::Refused::name_field, crate::proofs::Refused::name_let, crate::proofs::Refused::term_parameter, crate::proofs::Refused::term_field, crate::proofs::Refused::free_parameter, crate::proofs::Refused::free_field, crate::proofs::Parts::told_unput))]
pub fn name_term(
    name: &str,
    at: u32,
    scope: &Scope,
    inside: bool,
    room: &mut Room,
) -> Result<Term, ExpandFault>
    ensures exact { IfOk result (λ t. term_of t ≡ named_term (frame_of scope.now) name.now) }
    ensures item { item_at room.new ≡ item_at room.old }
    ensures at_once { (cause : Cause) → name_cause (frame_of scope.now) (later_of scope.now) name.now inside ≡ Some cause → result ≡ Err (At cause at) }
    ensures faultless { OnOk result (name_cause (frame_of scope.now) (later_of scope.now) name.now inside ≡ None) }
    ensures taken { OnOk result (parts_left room.new + unless_wrong (name_cause (frame_of scope.now) (later_of scope.now) name.now inside) (name_parts (frame_of scope.now) name.now) ≡ parts_left room.old) }
    ensures refused { IfErr result (IsFirst (bounded room.old (unless_wrong (name_cause (frame_of scope.now) (later_of scope.now) name.now inside) (name_parts (frame_of scope.now) name.now)) (told_at at (name_cause (frame_of scope.now) (later_of scope.now) name.now inside)))) }
{
    if let Some(k) = place_of(&scope.parameters, name) {
        return Ok(Term::Parameter(k));
    }
    if let Some(_) = place_of(&scope.fields, name) {
        return Ok(Term::Own(String::from_str(room.alloc, name)?));
    }
    match let_of(&scope.lets, name) {
        Some(known) => put_in(known, &[], at, inside, room),
        None => Err(unknown(name, at, scope, Cause::UnknownName)),
    }
}

/// Why a let, a constant or a state is not seen at a neighbour, if it is not.
fn seen_let_cause(known: &Known) -> Option<Cause>
    ensures exact { result ≡ seen_cause (known_of known.now) }
{
    if !known.is_let {
        return Some(Cause::UnknownNear);
    }
    if known.count != 0 {
        return Some(Cause::WrongCount);
    }
    if needs_neighbours(&known.term) || looks_outside(&known.term) {
        return Some(Cause::NotSeen);
    }
    None
}

/// The term of a let as seen from a neighbour.
#[tactic(auto, using(crate::proofs::Parts::told_put, crate::proofs::Parts::told_unput))]
fn seen_let(known: &Known, at: u32, room: &mut Room) -> Result<Term, ExpandFault>
    ensures exact { IfOk result (λ t. term_of t ≡ seen_near (term_of known.now.term)) }
    ensures item { item_at room.new ≡ item_at room.old }
    ensures at_once { (cause : Cause) → seen_cause (known_of known.now) ≡ Some cause → result ≡ Err (At cause at) }
    ensures faultless { OnOk result (seen_cause (known_of known.now) ≡ None) }
    ensures taken { OnOk result (parts_left room.new + unless_wrong (seen_cause (known_of known.now)) (size (seen_near (term_of known.now.term))) ≡ parts_left room.old) }
    ensures refused { IfErr result (IsFirst (bounded room.old (unless_wrong (seen_cause (known_of known.now)) (size (seen_near (term_of known.now.term)))) (told_at at (seen_cause (known_of known.now))))) }
{
    match seen_let_cause(known) {
        Some(cause) => Err(wrong(cause, at)),
        None => seen(&known.term, room),
    }
}

/// The term of a name after `n.`.
#[tactic(auto, using(crate::proofs::Refused::near_field, crate::proofs::Refused::near_let, crate::proofs::Refused::near_outside, crate::proofs::Refused::near_term_field, crate::proofs::Refused::free_near, crate::proofs::Parts::told_unput))]
pub fn near_term(
    name: &str,
    at: u32,
    scope: &Scope,
    inside: bool,
    room: &mut Room,
) -> Result<Term, ExpandFault>
    ensures exact { IfOk result (λ t. term_of t ≡ near_named_term (frame_of scope.now) name.now) }
    ensures item { item_at room.new ≡ item_at room.old }
    ensures at_once { (cause : Cause) → near_cause (frame_of scope.now) (later_of scope.now) name.now inside ≡ Some cause → result ≡ Err (At cause at) }
    ensures faultless { OnOk result (near_cause (frame_of scope.now) (later_of scope.now) name.now inside ≡ None) }
    ensures taken { OnOk result (parts_left room.new + unless_wrong (near_cause (frame_of scope.now) (later_of scope.now) name.now inside) (near_parts (frame_of scope.now) name.now) ≡ parts_left room.old) }
    ensures refused { IfErr result (IsFirst (bounded room.old (unless_wrong (near_cause (frame_of scope.now) (later_of scope.now) name.now inside) (near_parts (frame_of scope.now) name.now)) (told_at at (near_cause (frame_of scope.now) (later_of scope.now) name.now inside)))) }
{
    if !inside {
        return Err(wrong(Cause::NeighbourOutside, at));
    }
    if let Some(_) = place_of(&scope.fields, name) {
        return Ok(Term::Near(String::from_str(room.alloc, name)?));
    }
    match let_of(&scope.lets, name) {
        Some(known) => seen_let(known, at, room),
        None => Err(unknown(name, at, scope, Cause::UnknownNear)),
    }
}

/// The term of a let with arguments, by its name, which no parameter and no field has.
#[tactic(auto, using(crate::proofs::Parts::told_unput))]
fn applied(
    name: &str,
    at: u32,
    arguments: &[Term],
    scope: &Scope,
    inside: bool,
    room: &mut Room,
) -> Result<Term, ExpandFault>
    ensures exact { IfOk result (λ t. term_of t ≡ let_term (let_for (knowns_of scope.now.lets.items) name.now) (terms_of arguments.now)) }
    ensures item { item_at room.new ≡ item_at room.old }
    ensures at_once { (cause : Cause) → apply_cause (let_for (knowns_of scope.now.lets.items) name.now) (later_of scope.now) name.now (length arguments.now) (inside || list_any looks (terms_of arguments.now)) ≡ Some cause → result ≡ Err (At cause at) }
    ensures faultless { OnOk result (apply_cause (let_for (knowns_of scope.now.lets.items) name.now) (later_of scope.now) name.now (length arguments.now) (inside || list_any looks (terms_of arguments.now)) ≡ None) }
    ensures taken { OnOk result (parts_left room.new + unless_wrong (apply_cause (let_for (knowns_of scope.now.lets.items) name.now) (later_of scope.now) name.now (length arguments.now) (inside || list_any looks (terms_of arguments.now))) (let_parts (let_for (knowns_of scope.now.lets.items) name.now) (terms_of arguments.now)) ≡ parts_left room.old) }
    ensures refused { IfErr result (IsFirst (bounded room.old (unless_wrong (apply_cause (let_for (knowns_of scope.now.lets.items) name.now) (later_of scope.now) name.now (length arguments.now) (inside || list_any looks (terms_of arguments.now))) (let_parts (let_for (knowns_of scope.now.lets.items) name.now) (terms_of arguments.now))) (told_at at (apply_cause (let_for (knowns_of scope.now.lets.items) name.now) (later_of scope.now) name.now (length arguments.now) (inside || list_any looks (terms_of arguments.now)))))) }
{
    match let_of(&scope.lets, name) {
        Some(known) => put_in(known, arguments, at, inside, room),
        None => Err(unknown(name, at, scope, Cause::UnknownName)),
    }
}

/// Whether the name is that of a parameter or of a field, which stand without brackets.
fn stands_alone(name: &str, scope: &Scope) -> bool
    ensures exact { result ≡ (is_among (map string_bytes scope.now.parameters.items) name.now || is_among (map string_bytes scope.now.fields.items) name.now) }
{
    place_of(&scope.parameters, name).is_some() || place_of(&scope.fields, name).is_some()
}

/// The term of a name with arguments.
#[tactic(auto, using(crate::proofs::Refused::call_alone, crate::proofs::Refused::call_let, crate::proofs::Parts::told_unput))]
pub fn called(
    name: &str,
    at: u32,
    arguments: &[Term],
    scope: &Scope,
    inside: bool,
    room: &mut Room,
) -> Result<Term, ExpandFault>
    ensures exact { IfOk result (λ t. term_of t ≡ let_term (let_for (knowns_of scope.now.lets.items) name.now) (terms_of arguments.now)) }
    ensures item { item_at room.new ≡ item_at room.old }
    ensures at_once { (cause : Cause) → call_cause (frame_of scope.now) (later_of scope.now) name.now (length arguments.now) (inside || list_any looks (terms_of arguments.now)) ≡ Some cause → result ≡ Err (At cause at) }
    ensures faultless { OnOk result (call_cause (frame_of scope.now) (later_of scope.now) name.now (length arguments.now) (inside || list_any looks (terms_of arguments.now)) ≡ None) }
    ensures taken { OnOk result (parts_left room.new + unless_wrong (call_cause (frame_of scope.now) (later_of scope.now) name.now (length arguments.now) (inside || list_any looks (terms_of arguments.now))) (let_parts (let_for (knowns_of scope.now.lets.items) name.now) (terms_of arguments.now)) ≡ parts_left room.old) }
    ensures refused { IfErr result (IsFirst (bounded room.old (unless_wrong (call_cause (frame_of scope.now) (later_of scope.now) name.now (length arguments.now) (inside || list_any looks (terms_of arguments.now))) (let_parts (let_for (knowns_of scope.now.lets.items) name.now) (terms_of arguments.now))) (told_at at (call_cause (frame_of scope.now) (later_of scope.now) name.now (length arguments.now) (inside || list_any looks (terms_of arguments.now)))))) }
{
    if stands_alone(name, scope) {
        return Err(wrong(Cause::WrongCount, at));
    }
    applied(name, at, arguments, scope, inside, room)
}
