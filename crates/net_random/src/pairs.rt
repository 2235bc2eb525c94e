//! Links at places among all pairs of nodes.
ghost use Rattle.std.specs.Prelude.{◌≡◌, ◌≤◌, ◌<◌, All, length, map, IfOk};
ghost use Rattle.net_random.specs.RandomNetworks.{pair_count, AreSimpleLinks};
ghost use Rattle.net_random.specs.Pairs.{row_width, place_count, link_at};

use link_net::Link;
use rand::seq::index::sample;
use rand_pcg::Pcg64;
use std::alloc::{AllocError, Global};

/// How many pairs a row of the rectangle has.
fn row_width(nodes: u32) -> u32
    requires some { 1 ≤ nodes }
    ensures value { result ≡ row_width nodes }
    ensures bound { result ≤ nodes }
{
    2 * ((nodes - 1) / 2) + 1
}

/// How many places the rectangle has: as many as there are pairs of nodes.
pub(crate) fn place_count(nodes: u32) -> usize
    requires some { 1 ≤ nodes }
    ensures { result ≡ place_count nodes }
{
    (nodes / 2) as usize * row_width(nodes) as usize
}

/// The link at a place of the rectangle.
pub(crate) fn link_at(nodes: u32, place: usize) -> Link
    requires some { 1 ≤ nodes }
    requires low { place < place_count nodes }
    ensures { result ≡ link_at nodes place }
{
    let width = row_width(nodes);
    let row = (place / width as usize) as u32;
    let column = (place % width as usize) as u32;
    let above = nodes - 1 - row;
    if column < above {
        (row, row + 1 + column, 1)
    } else {
        let other = above + (nodes - width) - 1;
        (other, other + 1 + (column - above), 1)
    }
}

/// The links at some places of the rectangle.
pub(crate) fn links_at(alloc: Global, nodes: u32, places: &[usize]) -> Result<Vec<Link>, AllocError>
    requires some { 1 ≤ nodes }
    requires low { All (λ place. place < place_count nodes) places.now }
    ensures { IfOk result (λ v. v.items ≡ map (link_at nodes) places.now) }
{
    let mut links = Vec::with_capacity(alloc, places.len())?;
    for place in places {
        links.push(link_at(nodes, *place))?;
    }
    Ok(links)
}

/// So many different links among all pairs of nodes.
pub(crate) fn random_links(
    alloc: Global,
    rng: &mut Pcg64,
    nodes: u32,
    count: u32,
) -> Result<Vec<Link>, AllocError>
    requires some { 1 ≤ nodes }
    requires room { count ≤ pair_count nodes }
    ensures count { IfOk result (λ v. length v.items ≡ count) }
    ensures simple { IfOk result (λ v. AreSimpleLinks nodes v.items) }
{
    let places = sample(alloc, rng, place_count(nodes), count as usize)?;
    links_at(alloc, nodes, places.into_vec().as_slice())
}
