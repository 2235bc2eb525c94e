//! The links of shapes.
ghost use Rattle.std.specs.Prelude.{◌≡◌, ◌≢◌, ◌<◌, ◌≤◌, ◌+◌, ◌*◌, [], ◌∷◌, ◌++◌, length, map, true, false, None, OnOk, IfOk, IfErr};
ghost use Rattle.std.specs.List.{range_with_len};
ghost use Rattle.link_net.specs.Neighbours.{numbers_below};
ghost use Rattle.link_net.specs.Limits.{most_nodes};
ghost use Rattle.net_shapes.specs.declared.shape.Shape.{Shape};
ghost use Rattle.net_shapes.specs.Ahead.{link_to, when, prev, place, diagonals, slanted, ahead, links_ahead};
ghost use Rattle.net_shapes.specs.Shapes.{next, row, column, node_count, slants_left, slants_right, HasShape, HasNone};
ghost use Rattle.net_shapes.specs.Sizes.{has_size, link_count, refusal_of, refused_by};

use crate::sizes::{link_count, node_count, power, refusal};
use crate::{Shape, ShapeFault};
use link_net::Link;
use net_text::LinkList;
use std::alloc::{AllocError, Global};

/// The node after one on a ring.
fn next(nodes: u32, node: u32) -> u32
    requires { node < nodes }
    ensures value { result ≡ next nodes node }
    ensures bound { result < nodes }
{
    if node + 1 == nodes { 0 } else { node + 1 }
}

/// The node before one on a ring.
fn prev(nodes: u32, node: u32) -> u32
    requires { node < nodes }
    ensures value { result ≡ prev nodes node }
    ensures bound { result < nodes }
{
    if node == 0 { nodes - 1 } else { node - 1 }
}

/// Puts the link from a node to another one, where it is wanted.
fn put_if(links: &mut Vec<Link>, wanted: bool, node: u32, other: u32) -> Result<(), AllocError>
    ensures { OnOk result (links.new.items ≡ links.old.items ++ map (link_to node) (when wanted other)) }
{
    if wanted {
        links.push((node, other, 1))?;
    }
    Ok(())
}

/// Puts the links from a node of a grid to the nodes right of it and below it.
fn put_grid(links: &mut Vec<Link>, width: u32, height: u32, node: u32) -> Result<(), AllocError>
    requires wide { 1 ≤ width }
    requires small { width * height ≤ most_nodes }
    requires low { node < width * height }
    ensures { OnOk result (links.new.items ≡ links.old.items ++ map (link_to node) (ahead (Shape.Grid width height) node)) }
{
    put_if(links, node % width + 1 < width, node, node + 1)?;
    put_if(links, node / width + 1 < height, node, node + width)?;
    Ok(())
}

/// Whether links of a grid with diagonals lead from a row down to the right.
fn slants_right(hexagons: bool, row: u32) -> bool
    ensures { result ≡ slants_right hexagons row }
{
    !hexagons || row % 2 == 1
}

/// Whether they lead down to the left.
fn slants_left(hexagons: bool, row: u32) -> bool
    ensures { result ≡ slants_left hexagons row }
{
    !hexagons || row % 2 == 0
}

/// Puts the links from a node of a grid with diagonals to the nodes beside the one below it.
fn put_slanted(
    links: &mut Vec<Link>,
    width: u32,
    height: u32,
    hexagons: bool,
    node: u32,
) -> Result<(), AllocError>
    requires wide { 1 ≤ width }
    requires small { width * height ≤ most_nodes }
    requires low { node < width * height }
    ensures { OnOk result (links.new.items ≡ links.old.items ++ map (link_to node) (slanted width height hexagons node)) }
{
    let row = node / width;
    let column = node % width;
    let inner = row + 1 < height;
    let right = slants_right(hexagons, row) && column + 1 < width;
    let left = slants_left(hexagons, row) && column > 0;
    put_if(links, inner && right, node, node + width + 1)?;
    put_if(links, inner && left, node, node + width - 1)?;
    Ok(())
}

/// Puts the links that lead from a node of a grid with diagonals.
fn put_diagonal_grid(
    links: &mut Vec<Link>,
    width: u32,
    height: u32,
    hexagons: bool,
    node: u32,
) -> Result<(), AllocError>
    requires wide { 1 ≤ width }
    requires small { width * height ≤ most_nodes }
    requires low { node < width * height }
    ensures { OnOk result (links.new.items ≡ links.old.items ++ map (link_to node) (ahead (Shape.DiagonalGrid width height hexagons) node)) }
{
    put_grid(links, width, height, node)?;
    put_slanted(links, width, height, hexagons, node)?;
    Ok(())
}

/// Puts the link from a node to another one.
fn put(links: &mut Vec<Link>, node: u32, other: u32) -> Result<(), AllocError>
    ensures { OnOk result (links.new.items ≡ links.old.items ++ map (link_to node) (other ∷ [])) }
{
    links.push((node, other, 1))?;
    Ok(())
}

/// Puts the links from a node to so many nodes, from the first one on.
fn put_range(links: &mut Vec<Link>, node: u32, first: u32, count: u32) -> Result<(), AllocError>
    requires { first + count ≤ most_nodes }
    ensures { OnOk result (links.new.items ≡ links.old.items ++ map (link_to node) (range_with_len first count)) }
{
    for step in 0..count {
        links.push((node, first + step, 1))?;
    }
    Ok(())
}

/// The row of a node.
fn row(width: u32, height: u32, node: u32) -> u32
    requires wide { 1 ≤ width }
    requires low { node < width * height }
    ensures value { result ≡ row width node }
    ensures bound { result < height }
{
    node / width
}

/// The column of a node.
fn column(width: u32, node: u32) -> u32
    requires { 1 ≤ width }
    ensures value { result ≡ column width node }
    ensures bound { result < width }
{
    node % width
}

/// The node at a column and a row.
fn place(width: u32, height: u32, column: u32, row: u32) -> u32
    requires small { width * height ≤ most_nodes }
    requires in_row { column < width }
    requires in_column { row < height }
    ensures { result ≡ place width column row }
{
    row * width + column
}

/// Puts the links from a node of a torus to the nodes right of it and below it.
fn put_torus(links: &mut Vec<Link>, width: u32, height: u32, node: u32) -> Result<(), AllocError>
    requires wide { 1 ≤ width }
    requires small { width * height ≤ most_nodes }
    requires low { node < width * height }
    ensures { OnOk result (links.new.items ≡ links.old.items ++ map (link_to node) (ahead (Shape.Torus width height false) node)) }
{
    let row = row(width, height, node);
    let column = column(width, node);
    let right = place(width, height, next(width, column), row);
    let below = place(width, height, column, next(height, row));
    put(links, node, right)?;
    put(links, node, below)?;
    Ok(())
}

/// Puts the links from a node of a torus to the nodes at the right and at the left in the row below it.
fn put_diagonals(
    links: &mut Vec<Link>,
    width: u32,
    height: u32,
    node: u32,
) -> Result<(), AllocError>
    requires wide { 1 ≤ width }
    requires small { width * height ≤ most_nodes }
    requires low { node < width * height }
    ensures { OnOk result (links.new.items ≡ links.old.items ++ map (link_to node) (diagonals width height node)) }
{
    let column = column(width, node);
    let below = next(height, row(width, height, node));
    let right = place(width, height, next(width, column), below);
    let left = place(width, height, prev(width, column), below);
    put(links, node, right)?;
    put(links, node, left)?;
    Ok(())
}

/// Puts the links that lead from a node of a torus with diagonals.
fn put_diagonal_torus(
    links: &mut Vec<Link>,
    width: u32,
    height: u32,
    node: u32,
) -> Result<(), AllocError>
    requires wide { 1 ≤ width }
    requires small { width * height ≤ most_nodes }
    requires low { node < width * height }
    ensures { OnOk result (links.new.items ≡ links.old.items ++ map (link_to node) (ahead (Shape.Torus width height true) node)) }
{
    put_torus(links, width, height, node)?;
    put_diagonals(links, width, height, node)?;
    Ok(())
}

/// Puts the links from a node of a hypercube to the nodes that have 1 in place of one of its binary digits 0.
fn put_hypercube(links: &mut Vec<Link>, dimension: u32, node: u32) -> Result<(), AllocError>
    requires few { dimension ≤ 16 }
    requires low { node < most_nodes }
    ensures { OnOk result (links.new.items ≡ links.old.items ++ map (link_to node) (ahead (Shape.Hypercube dimension) node)) }
{
    for digit in 0..dimension {
        let step = power(digit);
        put_if(links, node / step % 2 == 0, node, node + step)?;
    }
    Ok(())
}

/// Puts the links that lead from a node.
fn put_links(links: &mut Vec<Link>, shape: &Shape, node: u32) -> Result<(), AllocError>
    requires size { has_size shape.now ≡ true }
    requires low { node < node_count shape.now }
    ensures { OnOk result (links.new.items ≡ links.old.items ++ map (link_to node) (ahead shape.now node)) }
{
    match *shape {
        Shape::Path { nodes } => put_if(links, node + 1 < nodes, node, node + 1),
        Shape::Ring { nodes } => put(links, node, next(nodes, node)),
        Shape::Star { .. } => put_if(links, node > 0, node, 0),
        Shape::Grid { width, height } => put_grid(links, width, height, node),
        Shape::DiagonalGrid {
            width,
            height,
            hexagons,
        } => put_diagonal_grid(links, width, height, hexagons, node),
        Shape::Torus {
            width,
            height,
            diagonals: false,
        } => put_torus(links, width, height, node),
        Shape::Torus {
            width,
            height,
            diagonals: true,
        } => put_diagonal_torus(links, width, height, node),
        Shape::Complete { nodes } => put_range(links, node, node + 1, nodes - (node + 1)),
        Shape::Bipartite { left, right } => {
            put_range(links, node, left, if node < left { right } else { 0 })
        }
        Shape::Tree { arity, .. } => {
            put_if(links, node > 0, node, node.saturating_sub(1) / arity)
        }
        Shape::Hypercube { dimension } => put_hypercube(links, dimension, node),
    }
}

/// The links that lead from all nodes.
fn all_links(alloc: Global, shape: &Shape) -> Result<Vec<Link>, AllocError>
    requires { refusal_of shape.now ≡ None }
    ensures { IfOk result (λ v. v.items ≡ links_ahead (ahead shape.now) (numbers_below (node_count shape.now))) }
{
    let mut links = Vec::with_capacity(alloc, link_count(shape) as usize)?;
    for node in 0..node_count(shape) {
        put_links(&mut links, shape, node)?;
    }
    Ok(links)
}

/// The links of a shape, each with weight 1, or why it has no network. `Memory` comes only where memory runs out, and
/// where nothing refuses; before anything large is made the sizes are looked at.
pub fn links_of(alloc: Global, shape: &Shape) -> Result<LinkList, ShapeFault>
    ensures made { IfOk result (λ list. HasShape shape.now list) }
    ensures count { IfOk result (λ list. length list.links ≡ link_count shape.now) }
    ensures fits { IfOk result (λ _. refusal_of shape.now ≡ None) }
    ensures too_many { IfErr result (λ fault. fault ≢ ShapeFault.Memory → fault ≢ ShapeFault.NodeCount → HasNone shape.now) }
    ensures refused { IfErr result (λ fault. refusal_of shape.now ≡ refused_by fault) }
{
    if let Some(fault) = refusal(shape) {
        return Err(fault);
    }
    let links = all_links(alloc, shape)?;
    Ok(LinkList::sound(node_count(shape), links))
}
