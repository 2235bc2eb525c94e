//! Links as lines of a network file.
ghost use Rattle.std.specs.Prelude.{◌≡◌, ◌≤◌, ◌++◌, OnOk, codes, string_bytes};
ghost use Rattle.link_net.specs.Limits.{most_weight};
ghost use Rattle.net_text.specs.Written.{weight_text, link_text, links_text, AllWeights};

use link_net::Link;
use std::alloc::AllocError;

/// Writes a weight after the ends of a link, where it is not 1.
fn put_weight(out: &mut String, weight: u32) -> Result<(), AllocError>
    ensures { OnOk result (string_bytes out.new ≡ string_bytes out.old ++ weight_text weight) }
{
    if weight == 1 {
        return Ok(());
    }
    write!(out, ", {weight}")
}

/// Writes the line of a link.
fn put_link(out: &mut String, link: &Link) -> Result<(), AllocError>
    ensures text { OnOk result (string_bytes out.new ≡ string_bytes out.old ++ (codes "\n    " ++ (link_text link.now ++ codes ","))) }
    ensures weight { link.now.2 ≤ most_weight }
{
    let (first, second, weight) = *link;
    write!(out, "\n    [{first}, {second}")?;
    put_weight(out, weight)?;
    out.push_str("],")
}

/// Writes the links of a network file, each with a line of its own.
pub(crate) fn put_links(out: &mut String, links: &[Link]) -> Result<(), AllocError>
    ensures text { OnOk result (string_bytes out.new ≡ string_bytes out.old ++ links_text links.now) }
    ensures weights { OnOk result (AllWeights links.now) }
{
    out.push_str("links = [")?;
    for link in links {
        put_link(out, link)?;
    }
    out.push_str("\n]\n")
}
