//! Networks drawn by nodes and links, as SVG.
ghost use Rattle.std.specs.Prelude.{◌≡◌, ◌≤◌, IfOk};
ghost use Rattle.run_picture.specs.Moving.{most_frames};
ghost use Rattle.run_picture.specs.Nets.{net_height, net_legend, net_sheet, net_width};

use crate::circles::put_circles;
use crate::film::{Film, Pace};
use crate::key::Key;
use crate::legend::{legend_lines, legend_width, put_legend};
use crate::places::across;
use crate::sheet::{put_opening, put_style};
use crate::strokes::put_strokes;
use link_net::Network;
use std::alloc::{AllocError, Global};

/// Where the legend begins.
fn net_legend(nodes: u32) -> u32
    requires few { nodes ≤ 65536 }
    ensures legend { result ≡ net_legend nodes }
    ensures small { result ≤ 968 }
{
    across(nodes) + 48
}

/// The size of the whole in pixels across.
fn net_width(key: &Key<'_>, nodes: u32) -> u32
    requires few { nodes ≤ 65536 }
    ensures { result ≡ net_width key.now nodes }
{
    (across(nodes) + 40).max(legend_width(key))
}

/// The size of the whole in pixels from the top to the bottom.
fn net_height(key: &Key<'_>, nodes: u32) -> u32
    requires few { nodes ≤ 65536 }
    ensures { result ≡ net_height key.now nodes }
{
    net_legend(nodes) + 18 * legend_lines(key)
}

/// The picture of a network whose nodes are coloured by a key, where their values stand frame by frame.
pub(crate) fn net_sheet(
    alloc: Global,
    key: &Key<'_>,
    pace: Pace,
    network: &Network,
    values: &[u32],
) -> Result<Vec<u8>, AllocError>
    requires some { 1 ≤ pace.frames }
    requires few { pace.frames ≤ most_frames }
    ensures text { IfOk result (λ v. v.items ≡ net_sheet key.now pace.frames pace.time network.now values.now) }
{
    let nodes = network.nodes();
    let film = Film {
        key,
        pace,
        nodes,
        values,
    };
    let mut out = String::new(alloc);
    put_opening(&mut out, net_width(key, nodes), net_height(key, nodes))?;
    put_style(&mut out, key)?;
    put_strokes(&mut out, network)?;
    put_circles(&mut out, alloc, &film)?;
    put_legend(&mut out, key, net_legend(nodes))?;
    out.push_str("</svg>\n")?;
    Ok(out.into_bytes())
}
