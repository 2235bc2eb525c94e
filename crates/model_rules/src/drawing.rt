//! Random numbers and chances of a model as terms.

ghost use Rattle.std.specs.Prelude.{◌≡◌, ◌≤◌, ◌<◌, ◌^◌, IfErr, IfOk, IfSome, IsNone, OnOk, Some, None};
ghost use Rattle.std.specs.Option.{option_or};
ghost use Rattle.model_rules.specs.declared.fault.Cause.TheVariants.{NotConstant, TooLong};
ghost use Rattle.model_rules.specs.declared.fault.ExpandFault.TheVariants.{At};
ghost use Rattle.rule_lang.specs.declared.tree.Op.TheVariants.{Less};
ghost use Rattle.model_rules.specs.FirstFaults.{IsFirst, told_at, seed_cause, node_cause, draw_cause, below_cause, chance_cause};
ghost use Rattle.model_rules.specs.Meaning.{chance, draw_number, seed_name};
ghost use Rattle.model_rules.specs.Refusals.{let_for};
ghost use Rattle.model_rules.specs.ScopeView.{frame_of, knowns_of};
ghost use Rattle.model_rules.specs.TermFor.{draw_term, let_number, number_in};
ghost use Rattle.model_rules.specs.TermView.{term_of};
ghost use Rattle.model_rules.specs.Terms.{NumberTerm, InfixTerm};

use crate::amount::{amount, is_fixed};
use crate::draw::{at_node, on_link};
use crate::fault::{Cause, ExpandFault, wrong};
use crate::names::inside_only;
use crate::operators::{Source, between};
use crate::scope::{Known, Scope, let_of};
use crate::term::Term;
use model_text::Decimal;
use rule_lang::Op;
use std::alloc::Global;

/// The number of the draw at a place of the text: how many stand before it.
fn number_for(draws: &[u32], at: u32) -> usize
    ensures exact { result ≡ draw_number draws.now at }
{
    for (k, place) in draws.iter().enumerate() {
        if *place == at {
            return k;
        }
    }
    draws.len()
}

/// The number of the draw, as a word.
fn numbered(draws: &[u32], at: u32) -> Result<u32, ExpandFault>
    ensures exact { IfOk result (λ number. number ≡ draw_number draws.now at) }
    ensures few { OnOk result (draw_number draws.now at < 65536) }
    ensures many { IfErr result (λ fault. (65536 ≤ draw_number draws.now at) × (fault ≡ At TooLong at)) }
{
    let number = number_for(draws, at);
    if number < 65536 {
        Ok(number as u32)
    } else {
        Err(wrong(Cause::TooLong, at))
    }
}

/// The number that a constant is.
fn constant(known: &Known, at: u32) -> Result<u32, ExpandFault>
    ensures exact { IfOk result (λ value. number_in (term_of known.now.term) ≡ Some value) }
    ensures refused { IfErr result (λ fault. (number_in (term_of known.now.term) ≡ None) × (fault ≡ At NotConstant at)) }
{
    match &known.term {
        Term::Number(value) => Ok(*value),
        _ => Err(wrong(Cause::NotConstant, at)),
    }
}

/// The seed.
fn seed_among(lets: &[Known], at: u32) -> Result<u32, ExpandFault>
    ensures exact { IfOk result (λ seed. let_number (let_for (knowns_of lets.now) seed_name) ≡ Some seed) }
    ensures faultless { OnOk result (seed_cause (let_for (knowns_of lets.now) seed_name) ≡ None) }
    ensures refused { IfErr result (λ fault. told_at at (seed_cause (let_for (knowns_of lets.now) seed_name)) ≡ Some fault) }
{
    match let_of(lets, "seed") {
        Some(known) => constant(known, at),
        None => Err(wrong(Cause::Ring, at)),
    }
}

/// What the draw at a place of the text gives at the node.
fn drawn_at_node(scope: &Scope, at: u32, alloc: Global) -> Result<Term, ExpandFault>
    ensures exact { IfOk result (λ t. term_of t ≡ draw_term Source.Node (frame_of scope.now) at) }
    ensures faultless { OnOk result (node_cause (frame_of scope.now) at ≡ None) }
    ensures refused { IfErr result (IsFirst (told_at at (node_cause (frame_of scope.now) at))) }
{
    let seed = seed_among(&scope.lets, at)?;
    let number = numbered(&scope.draws, at)?;
    let term = at_node(seed, number, alloc)?;
    Ok(term)
}

/// What the draw at a place of the text gives for the link to the neighbour.
fn drawn_on_link(scope: &Scope, at: u32, alloc: Global) -> Result<Term, ExpandFault>
    ensures exact { IfOk result (λ t. term_of t ≡ draw_term Source.Link (frame_of scope.now) at) }
    ensures faultless { OnOk result (node_cause (frame_of scope.now) at ≡ None) }
    ensures refused { IfErr result (IsFirst (told_at at (node_cause (frame_of scope.now) at))) }
{
    let seed = seed_among(&scope.lets, at)?;
    let number = numbered(&scope.draws, at)?;
    let term = on_link(seed, number, alloc)?;
    Ok(term)
}

/// What the draw at a place of the text gives, at the node or for the link to the neighbour; the second in an aggregate.
pub fn random_term(
    source: Source,
    scope: &Scope,
    inside: bool,
    at: u32,
    alloc: Global,
) -> Result<Term, ExpandFault>
    ensures exact { IfOk result (λ t. term_of t ≡ draw_term source (frame_of scope.now) at) }
    ensures faultless { OnOk result (draw_cause source (frame_of scope.now) inside at ≡ None) }
    ensures refused { IfErr result (IsFirst (told_at at (draw_cause source (frame_of scope.now) inside at))) }
{
    match source {
        Source::Node => drawn_at_node(scope, at, alloc),
        Source::Link => {
            inside_only(inside, at)?;
            drawn_on_link(scope, at, alloc)
        }
    }
}

/// A number below which a draw is to be, where it is a constant, is from 1 to 65536.
pub fn check_bound(bound: &Term, at: u32) -> Result<(), ExpandFault>
    ensures faultless { OnOk result (below_cause (term_of bound.now) ≡ None) }
    ensures refused { IfErr result (λ fault. told_at at (below_cause (term_of bound.now)) ≡ Some fault) }
{
    if !is_fixed(bound) {
        return Ok(());
    }
    let k = amount(bound, at)?;
    if k == 0 || k > 65536 {
        return Err(wrong(Cause::OutOfRange, at));
    }
    Ok(())
}

/// Ten to a number of places, of 9 at most.
fn unit(places: u32) -> Option<u64>
    ensures exact { IfSome result (λ unit. (places ≤ 9) × (unit ≡ 10 ^ places)) }
    ensures small { IfSome result (λ unit. (1 ≤ unit) × (unit ≤ 1000000000)) }
    ensures many { IsNone result → 9 < places }
{
    match places {
        0 => Some(1),
        1 => Some(10),
        2 => Some(100),
        3 => Some(1_000),
        4 => Some(10_000),
        5 => Some(100_000),
        6 => Some(1_000_000),
        7 => Some(10_000_000),
        8 => Some(100_000_000),
        9 => Some(1_000_000_000),
        _ => None,
    }
}

/// The number nearest to 65,536 times a decimal from 0 to 1.
pub fn chance_of(decimal: &Decimal, at: u32) -> Result<u32, ExpandFault>
    ensures exact { IfOk result (λ value. value ≡ chance decimal.now.numerator decimal.now.places) }
    ensures faultless { OnOk result (chance_cause decimal.now ≡ None) }
    ensures refused { IfErr result (λ fault. told_at at (chance_cause decimal.now) ≡ Some fault) }
{
    let Some(unit) = unit(decimal.places) else {
        return Err(wrong(Cause::OutOfRange, at));
    };
    if u64::from(decimal.numerator) > unit {
        return Err(wrong(Cause::OutOfRange, at));
    }
    let value = (u64::from(decimal.numerator) * 131_072 + unit) / (2 * unit);
    Ok(value as u32)
}

/// Whether a draw at the node is below a chance.
pub fn chance_term(
    decimal: &Decimal,
    scope: &Scope,
    at: u32,
    alloc: Global,
) -> Result<Term, ExpandFault>
    ensures exact { IfOk result (λ t. term_of t ≡ InfixTerm Less (draw_term Source.Node (frame_of scope.now) at) (NumberTerm (chance decimal.now.numerator decimal.now.places))) }
    ensures faultless { OnOk result (option_or (chance_cause decimal.now) (node_cause (frame_of scope.now) at) ≡ None) }
    ensures refused { IfErr result (IsFirst (told_at at (option_or (chance_cause decimal.now) (node_cause (frame_of scope.now) at)))) }
{
    let value = chance_of(decimal, at)?;
    let draw = drawn_at_node(scope, at, alloc)?;
    Ok(between(Op::Less, draw, Term::Number(value), alloc)?)
}
