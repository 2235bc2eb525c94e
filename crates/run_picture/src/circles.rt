//! Nodes as circles, which change from frame to frame.
ghost use Rattle.std.specs.Prelude.{◌≡◌, ◌++◌, ◌≤◌, ◌<◌, OnOk, length, string_bytes};
ghost use Rattle.run_picture.specs.Moving.{most_frames};
ghost use Rattle.run_picture.specs.Nets.{changing_circle, circle_of, circle_text, circles_group, circles_text, node_circle, turns_text};

use crate::changes::{Change, changes_of, classes_of};
use crate::film::{Film, Pace};
use crate::key::Key;
use crate::moving::put_animate;
use crate::places::{Place, place_of, radius_of};
use std::alloc::{AllocError, Global};

/// What stands first in a node.
#[tactic(auto, unfolding(crate::specs::Nets::circle_text))]
fn put_circle(
    out: &mut String,
    class: usize,
    place: Place,
    radius: u32,
    node: u32,
) -> Result<(), AllocError>
    ensures text { OnOk result (string_bytes out.new ≡ string_bytes out.old ++ circle_text class place radius node) }
{
    let Place { x, y } = place;
    write!(
        out,
        "<circle class=\"c{class}\" cx=\"{x}\" cy=\"{y}\" r=\"{radius}\"><title>{node}</title>"
    )
}

/// What a node's colour goes through, where it changes.
fn put_turns(
    out: &mut String,
    key: &Key<'_>,
    pace: Pace,
    class: usize,
    changes: &[Change],
) -> Result<(), AllocError>
    requires some { 1 ≤ pace.frames }
    ensures text { OnOk result (string_bytes out.new ≡ string_bytes out.old ++ turns_text key.now pace.frames pace.time class changes.now) }
{
    match changes {
        [] => Ok(()),
        _ => put_animate(out, key, pace, class, changes),
    }
}

/// A node, with this first colour and these changes.
#[tactic(auto, unfolding(crate::specs::Nets::changing_circle))]
fn put_changing(
    out: &mut String,
    film: &Film<'_>,
    node: u32,
    class: usize,
    changes: &[Change],
) -> Result<(), AllocError>
    requires node { node < film.now.nodes }
    requires nodes { film.now.nodes ≤ 65536 }
    requires some { 1 ≤ film.now.pace.frames }
    ensures text { OnOk result (string_bytes out.new ≡ string_bytes out.old ++ changing_circle film.now.key.now film.now.pace.frames film.now.pace.time film.now.nodes node class changes.now) }
{
    let nodes = film.nodes;
    put_circle(out, class, place_of(nodes, node), radius_of(nodes), node)?;
    put_turns(out, film.key, film.pace, class, changes)?;
    out.push_str("</circle>\n")
}

/// A node, with these colours frame by frame.
fn put_colours(
    out: &mut String,
    alloc: Global,
    film: &Film<'_>,
    node: u32,
    classes: &[usize],
) -> Result<(), AllocError>
    requires node { node < film.now.nodes }
    requires nodes { film.now.nodes ≤ 65536 }
    requires some { 1 ≤ film.now.pace.frames }
    requires few { length classes.now ≤ most_frames }
    ensures text { OnOk result (string_bytes out.new ≡ string_bytes out.old ++ node_circle film.now.key.now film.now.pace.frames film.now.pace.time film.now.nodes node classes.now) }
{
    let changes = changes_of(alloc, classes)?;
    let class = classes.first().copied().unwrap_or(0);
    put_changing(out, film, node, class, &changes)
}

/// A node, in the colours of its values.
fn put_node(out: &mut String, alloc: Global, film: &Film<'_>, node: u32) -> Result<(), AllocError>
    requires node { node < film.now.nodes }
    requires nodes { film.now.nodes ≤ 65536 }
    requires some { 1 ≤ film.now.pace.frames }
    requires few { film.now.pace.frames ≤ most_frames }
    ensures text { OnOk result (string_bytes out.new ≡ string_bytes out.old ++ circle_of film.now.key.now film.now.pace.frames film.now.pace.time film.now.nodes film.now.values.now node) }
{
    let classes = classes_of(alloc, film, node)?;
    put_colours(out, alloc, film, node, &classes)
}

/// All nodes.
fn put_nodes(out: &mut String, alloc: Global, film: &Film<'_>) -> Result<(), AllocError>
    requires nodes { film.now.nodes ≤ 65536 }
    requires some { 1 ≤ film.now.pace.frames }
    requires few { film.now.pace.frames ≤ most_frames }
    ensures text { OnOk result (string_bytes out.new ≡ string_bytes out.old ++ circles_text film.now.key.now film.now.pace.frames film.now.pace.time film.now.nodes film.now.values.now) }
{
    for node in 0..film.nodes {
        put_node(out, alloc, film, node)?;
    }
    Ok(())
}

/// The same, each with a grey edge.
#[tactic(auto, unfolding(crate::specs::Nets::circles_group))]
pub(crate) fn put_circles(
    out: &mut String,
    alloc: Global,
    film: &Film<'_>,
) -> Result<(), AllocError>
    requires nodes { film.now.nodes ≤ 65536 }
    requires some { 1 ≤ film.now.pace.frames }
    requires few { film.now.pace.frames ≤ most_frames }
    ensures text { OnOk result (string_bytes out.new ≡ string_bytes out.old ++ circles_group film.now.key.now film.now.pace.frames film.now.pace.time film.now.nodes film.now.values.now) }
{
    out.push_str("<g stroke=\"#555555\" stroke-width=\"0.5\" shape-rendering=\"auto\">\n")?;
    put_nodes(out, alloc, film)?;
    out.push_str("</g>\n")
}
