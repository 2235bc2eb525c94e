//! Terms for random numbers.

ghost use Rattle.std.specs.Prelude.{◌≡◌, IfOk};
ghost use Rattle.model_rules.specs.Draws.{mixed, key};
ghost use Rattle.model_rules.specs.DrawTerms.{spread_term, stirred_term, folded_term, node_term, link_term, low_term, high_term, node_begun, node_draw_term, link_begun, link_draw_term, scaled_term};
ghost use Rattle.model_rules.specs.TermView.{term_of};

use crate::operators::between;
use crate::term::Term;
use rule_lang::Op;
use std::alloc::{AllocError, Global};

/// A word of which each bit hangs on each bit of this one.
fn mix(word: u32) -> u32
    ensures exact { result ≡ mixed word }
{
    let upper = (word ^ (word / 65536)).wrapping_mul(2146121005);
    let lower = (upper ^ (upper / 32768)).wrapping_mul(2221713035);
    lower ^ (lower / 65536)
}

/// The key for a step of a draw.
fn key_for(seed: u32, draw: u32, step: u32) -> u32
    ensures exact { result ≡ key seed draw step }
{
    mix(mix(seed ^ step.wrapping_mul(2654435769)) ^ draw)
}

/// A number spread over 32 bits: its rest by a prime, times a factor.
fn spread(part: Term, prime: u32, factor: u32, alloc: Global) -> Result<Term, AllocError>
    ensures exact { IfOk result (λ t. term_of t ≡ spread_term prime factor (term_of part)) }
{
    let rest = between(Op::Rem, part, Term::Number(prime), alloc)?;
    between(Op::Times, rest, Term::Number(factor), alloc)
}

/// What there is so far, spread anew, with a word and a key.
fn stirred(
    so_far: Term,
    prime: u32,
    factor: u32,
    part: Term,
    key: u32,
    alloc: Global,
) -> Result<Term, AllocError>
    ensures exact { IfOk result (λ t. term_of t ≡ stirred_term prime factor (term_of so_far) (term_of part) key) }
{
    let keyed = between(Op::BitXor, part, Term::Number(key), alloc)?;
    let anew = spread(so_far, prime, factor, alloc)?;
    between(Op::BitXor, anew, keyed, alloc)
}

/// 16 bits of a number.
fn folded(part: Term, alloc: Global) -> Result<Term, AllocError>
    ensures exact { IfOk result (λ t. term_of t ≡ folded_term (term_of part)) }
{
    let anew = spread(part, 1048573, 3299, alloc)?;
    let rest = between(Op::Rem, anew, Term::Number(1048573), alloc)?;
    between(Op::Rem, rest, Term::Number(65536), alloc)
}

/// The words of a node and of the round.
fn node_words(prime: u32, of_id: u32, of_round: u32, alloc: Global) -> Result<Term, AllocError>
    ensures exact { IfOk result (λ t. term_of t ≡ node_term prime of_id of_round) }
{
    let id = spread(Term::Id, prime, of_id, alloc)?;
    let round = spread(Term::Round, prime, of_round, alloc)?;
    between(Op::BitXor, id, round, alloc)
}

/// The first steps of a draw at a node.
fn node_begin(seed: u32, draw: u32, alloc: Global) -> Result<Term, AllocError>
    ensures exact { IfOk result (λ t. term_of t ≡ node_begun seed draw) }
{
    let id = spread(Term::Id, 104729, 40507, alloc)?;
    let key = Term::Number(key_for(seed, draw, 1));
    let first = between(Op::BitXor, id, key, alloc)?;
    let round = spread(Term::Round, 104729, 39119, alloc)?;
    stirred(first, 1040021, 4093, round, key_for(seed, draw, 2), alloc)
}

/// The number that a draw gives at a node.
pub fn at_node(seed: u32, draw: u32, alloc: Global) -> Result<Term, AllocError>
    ensures exact { IfOk result (λ t. term_of t ≡ node_draw_term seed draw) }
{
    let begun = node_begin(seed, draw, alloc)?;
    let words = node_words(99991, 41893, 42083, alloc)?;
    let third = stirred(begun, 1020001, 4201, words, key_for(seed, draw, 3), alloc)?;
    let words = node_words(93997, 44111, 45007, alloc)?;
    let fourth = stirred(third, 990001, 4327, words, key_for(seed, draw, 4), alloc)?;
    folded(fourth, alloc)
}

/// The lower number of a link's two nodes.
fn low(alloc: Global) -> Result<Term, AllocError>
    ensures exact { IfOk result (λ t. term_of t ≡ low_term) }
{
    between(Op::Min, Term::Id, Term::NearId, alloc)
}

/// The higher number of a link's two nodes.
fn high(alloc: Global) -> Result<Term, AllocError>
    ensures exact { IfOk result (λ t. term_of t ≡ high_term) }
{
    between(Op::Max, Term::Id, Term::NearId, alloc)
}

/// The words of a link and of the round.
fn link_words(
    prime: u32,
    of_low: u32,
    of_high: u32,
    of_round: u32,
    alloc: Global,
) -> Result<Term, AllocError>
    ensures exact { IfOk result (λ t. term_of t ≡ link_term prime of_low of_high of_round) }
{
    let lower = spread(low(alloc)?, prime, of_low, alloc)?;
    let higher = spread(high(alloc)?, prime, of_high, alloc)?;
    let both = between(Op::BitXor, lower, higher, alloc)?;
    let round = spread(Term::Round, prime, of_round, alloc)?;
    between(Op::BitXor, both, round, alloc)
}

/// The first steps of a draw for a link.
fn link_begin(seed: u32, draw: u32, alloc: Global) -> Result<Term, AllocError>
    ensures exact { IfOk result (λ t. term_of t ≡ link_begun seed draw) }
{
    let lower = spread(low(alloc)?, 104729, 40507, alloc)?;
    let key = Term::Number(key_for(seed, draw, 1));
    let first = between(Op::BitXor, lower, key, alloc)?;
    let higher = spread(high(alloc)?, 104729, 39119, alloc)?;
    stirred(first, 1040021, 4093, higher, key_for(seed, draw, 2), alloc)
}

/// The number that a draw gives for the link to a neighbour.
pub fn on_link(seed: u32, draw: u32, alloc: Global) -> Result<Term, AllocError>
    ensures exact { IfOk result (λ t. term_of t ≡ link_draw_term seed draw) }
{
    let begun = link_begin(seed, draw, alloc)?;
    let round = spread(Term::Round, 104729, 37397, alloc)?;
    let third = stirred(begun, 1020001, 4201, round, key_for(seed, draw, 3), alloc)?;
    let words = link_words(99991, 41893, 42083, 38653, alloc)?;
    let fourth = stirred(third, 990001, 4327, words, key_for(seed, draw, 4), alloc)?;
    let words = link_words(93997, 44111, 45007, 43067, alloc)?;
    let fifth = stirred(fourth, 970027, 4421, words, key_for(seed, draw, 5), alloc)?;
    folded(fifth, alloc)
}

/// A number below a bound, of one from 0 to 65535.
pub fn scaled(part: Term, bound: Term, alloc: Global) -> Result<Term, AllocError>
    ensures exact { IfOk result (λ t. term_of t ≡ scaled_term (term_of part) (term_of bound)) }
{
    let product = between(Op::Times, part, bound, alloc)?;
    between(Op::Quot, product, Term::Number(65536), alloc)
}
