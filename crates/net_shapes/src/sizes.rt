//! How large shapes are.
ghost use Rattle.std.specs.Prelude.{◌≡◌, ◌≤◌, ◌*◌, ◌^◌, true};
ghost use Rattle.link_net.specs.Limits.{most_nodes};
ghost use Rattle.net_shapes.specs.Shapes.{node_count};
ghost use Rattle.net_shapes.specs.Sizes.{is_from, has_size, grid_links, diagonal_links, torus_links, tree_neighbours, link_count, neighbour_count, refusal_of};

use crate::{Shape, ShapeFault};
use link_net::{MOST_LINKS, MOST_NEIGHBOURS, MOST_NODES};

/// The most dimensions of a hypercube that has no more nodes than a network file may have.
const MOST_DIMENSIONS: u32 = 16;

/// The power of two.
pub(crate) fn power(exponent: u32) -> u32
    requires { exponent ≤ 30 }
    ensures value { result ≡ 2 ^ exponent }
    ensures some { 1 ≤ result }
    ensures bound { result ≤ 2 ^ 30 }
    ensures few { exponent ≤ 16 → result ≤ most_nodes }
{
    2u32.pow(exponent)
}

/// Whether the number is from the least up to the most nodes of a network.
fn is_from(least: u64, nodes: u64) -> bool
    ensures { result ≡ is_from least nodes }
{
    nodes >= least && nodes <= MOST_NODES as u64
}

/// Whether the number of nodes is one that the shape can have.
fn has_size(shape: &Shape) -> bool
    ensures { result ≡ has_size shape.now }
{
    match *shape {
        Shape::Path { nodes } => is_from(1, nodes as u64),
        Shape::Ring { nodes } => is_from(3, nodes as u64),
        Shape::Star { nodes } => is_from(1, nodes as u64),
        Shape::Grid { width, height } | Shape::DiagonalGrid { width, height, .. } => {
            width >= 1 && height >= 1 && width as u64 * height as u64 <= MOST_NODES as u64
        }
        Shape::Torus { width, height, .. } => {
            width >= 3 && height >= 3 && width as u64 * height as u64 <= MOST_NODES as u64
        }
        Shape::Complete { nodes } => is_from(1, nodes as u64),
        Shape::Bipartite { left, right } => {
            left >= 1 && right >= 1 && left as u64 + right as u64 <= MOST_NODES as u64
        }
        Shape::Tree { nodes, arity } => is_from(1, nodes as u64) && arity >= 1,
        Shape::Hypercube { dimension } => dimension <= MOST_DIMENSIONS,
    }
}

/// How many links a grid has: those in its rows and those in its columns.
fn grid_links(width: u64, height: u64) -> u64
    requires wide { 1 ≤ width }
    requires high { 1 ≤ height }
    requires small { width * height ≤ most_nodes }
    ensures { result ≡ grid_links width height }
{
    (width - 1) * height + width * (height - 1)
}

/// How many links a grid with diagonals has: those of a grid, and one or two from each place where four nodes meet.
fn diagonal_links(width: u64, height: u64, hexagons: bool) -> u64
    requires wide { 1 ≤ width }
    requires high { 1 ≤ height }
    requires small { width * height ≤ most_nodes }
    ensures { result ≡ diagonal_links width height hexagons }
{
    let places = (width - 1) * (height - 1);
    grid_links(width, height) + if hexagons { places } else { 2 * places }
}

/// How many links a torus has: two or four for each node.
fn torus_links(width: u64, height: u64, diagonals: bool) -> u64
    requires { width * height ≤ most_nodes }
    ensures { result ≡ torus_links width height diagonals }
{
    let nodes = width * height;
    if diagonals { 4 * nodes } else { 2 * nodes }
}

/// How many links the shape has.
pub(crate) fn link_count(shape: &Shape) -> u64
    requires { has_size shape.now ≡ true }
    ensures { result ≡ link_count shape.now }
{
    match *shape {
        Shape::Path { nodes } => nodes as u64 - 1,
        Shape::Ring { nodes } => nodes as u64,
        Shape::Star { nodes } => nodes as u64 - 1,
        Shape::Grid { width, height } => grid_links(width as u64, height as u64),
        Shape::DiagonalGrid {
            width,
            height,
            hexagons,
        } => diagonal_links(width as u64, height as u64, hexagons),
        Shape::Torus {
            width,
            height,
            diagonals,
        } => torus_links(width as u64, height as u64, diagonals),
        Shape::Complete { nodes } => nodes as u64 * (nodes as u64 - 1) / 2,
        Shape::Bipartite { left, right } => left as u64 * right as u64,
        Shape::Tree { nodes, .. } => nodes as u64 - 1,
        Shape::Hypercube { dimension } => dimension as u64 * power(dimension) as u64 / 2,
    }
}

/// How many neighbours a node of a tree has at most: the root its children, node 1 its children and the root.
fn tree_neighbours(nodes: u32, arity: u32) -> u32
    requires some { 1 ≤ nodes }
    requires small { nodes ≤ most_nodes }
    ensures { result ≡ tree_neighbours nodes arity }
{
    let of_root = arity.min(nodes - 1);
    let of_child = 1 + arity.min((nodes - 1).saturating_sub(arity));
    of_root.max(of_child)
}

/// How many neighbours a node of the shape has at most.
fn neighbour_count(shape: &Shape) -> u64
    requires { has_size shape.now ≡ true }
    ensures { result ≡ neighbour_count shape.now }
{
    match *shape {
        Shape::Path { .. } => 2,
        Shape::Ring { .. } => 2,
        Shape::Star { nodes } => nodes as u64 - 1,
        Shape::Grid { .. } => 4,
        Shape::DiagonalGrid { hexagons: true, .. } => 6,
        Shape::DiagonalGrid {
            hexagons: false,
            ..
        } => 8,
        Shape::Torus {
            diagonals: false,
            ..
        } => 4,
        Shape::Torus {
            diagonals: true,
            ..
        } => 8,
        Shape::Complete { nodes } => nodes as u64 - 1,
        Shape::Bipartite { left, right } => left.max(right) as u64,
        Shape::Tree { nodes, arity } => tree_neighbours(nodes, arity) as u64,
        Shape::Hypercube { dimension } => dimension as u64,
    }
}

/// Why the shape has no network.
pub(crate) fn refusal(shape: &Shape) -> Option<ShapeFault>
    ensures { result ≡ refusal_of shape.now }
{
    if !has_size(shape) {
        return Some(ShapeFault::NodeCount);
    }
    if link_count(shape) > MOST_LINKS as u64 {
        return Some(ShapeFault::TooManyLinks);
    }
    if neighbour_count(shape) > MOST_NEIGHBOURS as u64 {
        return Some(ShapeFault::TooManyNeighbours);
    }
    None
}

/// How many nodes the shape has.
pub(crate) fn node_count(shape: &Shape) -> u32
    requires { has_size shape.now ≡ true }
    ensures { result ≡ node_count shape.now }
{
    match *shape {
        Shape::Path { nodes } => nodes,
        Shape::Ring { nodes } => nodes,
        Shape::Star { nodes } => nodes,
        Shape::Grid { width, height } => width * height,
        Shape::DiagonalGrid { width, height, .. } => width * height,
        Shape::Torus { width, height, .. } => width * height,
        Shape::Complete { nodes } => nodes,
        Shape::Bipartite { left, right } => left + right,
        Shape::Tree { nodes, .. } => nodes,
        Shape::Hypercube { dimension } => power(dimension),
    }
}
