//! What one wants to know of a network.
ghost use Rattle.std.specs.Prelude.{◌≡◌, ◌↔◌, ◌≤◌, ◌*◌, ◌++◌, ◌∷◌, ℕ, List, [], length, map, IfOk, IfSome, IsSome};
ghost use Rattle.std.specs.List.{sum_by};
ghost use Rattle.net_facts.specs.Distances.{IsDiameter};
ghost use Rattle.net_facts.specs.Facts.{IsRange, IsRangeOf, most_walks, weights_of};
ghost use Rattle.net_facts.specs.Parts.{HasParts};

use crate::parts::components;
use crate::walks::diameter;
use link_net::Network;
use std::alloc::{AllocError, Global};

/// The most nodes of a network whose diameter is found: it takes a walk from each.
const MOST_WALKS: u32 = 2_048;

/// A least and a greatest number.
#[derive(Clone, Copy)]
pub struct Range {
    pub least: u32,
    pub greatest: u32,
}

/// What one wants to know of a network before a run.
#[derive(Clone, Copy)]
pub struct Facts {
    /// How many nodes there are.
    pub nodes: u32,
    /// How many links there are.
    pub links: u32,
    /// The least and the greatest number of neighbours of a node.
    pub degrees: Range,
    /// How many parts there are that no links join.
    pub components: u32,
    /// The greatest distance between two nodes that a way joins; none where there are more than 2,048 nodes.
    pub diameter: Option<u32>,
    /// The least and the greatest weight; none where there are no links.
    pub weights: Option<Range>,
}

/// The range of one number more.
fn with(range: Option<Range>, number: u32) -> Option<Range>
    ensures range { (numbers : List ℕ) → IsRangeOf numbers range → IsRangeOf (numbers ++ number ∷ []) result }
{
    match range {
        Some(range) => Some(Range {
            least: range.least.min(number),
            greatest: range.greatest.max(number),
        }),
        None => Some(Range {
            least: number,
            greatest: number,
        }),
    }
}

/// The least and the greatest number of neighbours of a node.
fn degrees(network: &Network) -> Option<Range>
    ensures { IsRangeOf (map length network.now) result }
{
    let mut range = None;
    for node in 0..network.nodes() {
        range = with(range, network.degree_of(node));
    }
    range
}

/// The range of the weights of a node's links more.
fn with_weights(range: Option<Range>, weights: &[u32]) -> Option<Range>
    ensures range { (numbers : List ℕ) → IsRangeOf numbers range → IsRangeOf (numbers ++ weights.now) result }
{
    let mut range = range;
    for weight in weights {
        range = with(range, *weight);
    }
    range
}

/// The least and the greatest weight.
fn weights(network: &Network) -> Option<Range>
    ensures { IsRangeOf (weights_of network.now) result }
{
    let mut range = None;
    for node in 0..network.nodes() {
        range = with_weights(range, network.weights_of(node));
    }
    range
}

/// The diameter, where the network is small.
fn small_diameter(alloc: Global, network: &Network) -> Result<Option<u32>, AllocError>
    ensures small { IfOk result (λ d. IsSome d ↔ (length network.now ≤ most_walks)) }
    ensures distance { IfOk result (λ d. IfSome d (IsDiameter network.now)) }
{
    if network.nodes() > MOST_WALKS {
        return Ok(None);
    }
    Ok(Some(diameter(alloc, network)?))
}

/// What one wants to know of a network before a run.
pub fn facts_of(alloc: Global, network: &Network) -> Result<Facts, AllocError>
    ensures nodes { IfOk result (λ f. f.nodes ≡ length network.now) }
    ensures links { IfOk result (λ f. 2 * f.links ≡ sum_by length network.now) }
    ensures degrees { IfOk result (λ f. IsRange (map length network.now) f.degrees) }
    ensures components { IfOk result (λ f. HasParts network.now f.components) }
    ensures diameter { IfOk result (λ f. IsSome f.diameter ↔ (length network.now ≤ most_walks)) }
    ensures distance { IfOk result (λ f. IfSome f.diameter (IsDiameter network.now)) }
    ensures weights { IfOk result (λ f. IsRangeOf (weights_of network.now) f.weights) }
{
    Ok(Facts {
        nodes: network.nodes(),
        links: network.links(),
        degrees: degrees(network).unwrap_or(Range {
            least: 0,
            greatest: 0,
        }),
        components: components(alloc, network)?,
        diameter: small_diameter(alloc, network)?,
        weights: weights(network),
    })
}
