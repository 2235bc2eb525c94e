//! Which shapes have a network.
ghost use Rattle.std.specs.Prelude.{◌≡◌, ◌≤◌, None, true, nat_le};
ghost use Rattle.link_net.specs.Limits.{most_rows};
ghost use Rattle.net_shapes.specs.Shapes.{node_count};
ghost use Rattle.net_shapes.specs.LargeSizes.{has_enough, refusal_of};

use crate::{LargeShapeFault, Shape};

/// The most nodes of a network.
const MOST_NODES: u64 = 4_294_967_295;

/// The most dimensions of a hypercube that has no more nodes than a network may have.
const MOST_LARGE_DIMENSIONS: u32 = 31;

/// Whether the shape has a node, and what closes to a ring has three; each side of a bipartite one has a node, and a tree an
/// arity.
fn has_enough(shape: &Shape) -> bool
    ensures { result ≡ has_enough shape.now }
{
    match *shape {
        Shape::Path { nodes } | Shape::Star { nodes } | Shape::Complete { nodes } => nodes >= 1,
        Shape::Ring { nodes } => nodes >= 3,
        Shape::Grid { width, height } | Shape::DiagonalGrid { width, height, .. } => {
            width >= 1 && height >= 1
        }
        Shape::Torus { width, height, .. } => width >= 3 && height >= 3,
        Shape::Bipartite { left, right } => left >= 1 && right >= 1,
        Shape::Tree { nodes, arity } => nodes >= 1 && arity >= 1,
        Shape::Hypercube { .. } => true,
    }
}

/// Whether the shape has no more nodes than a network may have.
#[tactic(auto, using(crate::proofs::CubeSizes::cube_fits))]
fn is_within(shape: &Shape) -> bool
    ensures { result ≡ nat_le (node_count shape.now) most_rows }
{
    match *shape {
        Shape::Path { nodes }
        | Shape::Ring { nodes }
        | Shape::Star { nodes }
        | Shape::Complete { nodes }
        | Shape::Tree { nodes, .. } => nodes as u64 <= MOST_NODES,
        Shape::Grid { width, height }
        | Shape::DiagonalGrid { width, height, .. }
        | Shape::Torus { width, height, .. } => width as u64 * height as u64 <= MOST_NODES,
        Shape::Bipartite { left, right } => left as u64 + right as u64 <= MOST_NODES,
        Shape::Hypercube { dimension } => dimension <= MOST_LARGE_DIMENSIONS,
    }
}

/// Why the shape has no network of any size: `TooFewNodes` or `TooManyNodes`, in this order.
pub fn large_refusal(shape: &Shape) -> Option<LargeShapeFault>
    ensures { result ≡ refusal_of shape.now }
{
    if !has_enough(shape) {
        return Some(LargeShapeFault::TooFewNodes);
    }
    if !is_within(shape) {
        return Some(LargeShapeFault::TooManyNodes);
    }
    None
}

/// How many nodes the shape has.
#[tactic(auto, using(crate::proofs::CubeSizes::cube_small))]
pub(crate) fn large_count(shape: &Shape) -> u32
    requires fits { refusal_of shape.now ≡ None }
    ensures { result ≡ node_count shape.now }
{
    match *shape {
        Shape::Path { nodes }
        | Shape::Ring { nodes }
        | Shape::Star { nodes }
        | Shape::Complete { nodes }
        | Shape::Tree { nodes, .. } => nodes,
        Shape::Grid { width, height }
        | Shape::DiagonalGrid { width, height, .. }
        | Shape::Torus { width, height, .. } => width * height,
        Shape::Bipartite { left, right } => left + right,
        Shape::Hypercube { dimension } => 2u32.pow(dimension),
    }
}

/// How many neighbours the nodes have together, or somewhat more, or fewer where that is more than can be counted.
pub(crate) fn room(shape: &Shape, nodes: u32) -> usize {
    let nodes = nodes as u64;
    let ends = match *shape {
        Shape::Path { .. } | Shape::Ring { .. } | Shape::Star { .. } | Shape::Tree { .. } => {
            nodes.saturating_mul(2)
        }
        Shape::Grid { .. }
        | Shape::Torus {
            diagonals: false,
            ..
        } => nodes.saturating_mul(4),
        Shape::DiagonalGrid { hexagons: true, .. } => nodes.saturating_mul(6),
        Shape::DiagonalGrid { .. } | Shape::Torus { .. } => nodes.saturating_mul(8),
        Shape::Complete { .. } => nodes.saturating_mul(nodes.saturating_sub(1)),
        Shape::Bipartite { left, right } => { (2 * left as u64).saturating_mul(right as u64) }
        Shape::Hypercube { dimension } => nodes.saturating_mul(dimension as u64),
    };
    ends as usize
}
