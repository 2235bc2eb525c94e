//! The text of a network file.
ghost use Rattle.std.specs.Prelude.{◌≡◌, ◌≤◌, ◌++◌, ℕ, List, false, Ok, IfOk, string_bytes};
ghost use Rattle.toml.specs.Text.{IsDocumentText};
ghost use Rattle.link_net.specs.Names.{AreRising};
ghost use Rattle.link_net.specs.Reading.{reading_of};
ghost use Rattle.net_text.specs.Listing.{described};
ghost use Rattle.net_text.specs.Written.{links_text, rest_document};

use crate::LinkList;
use crate::document::rest_table;
use crate::link_lines::put_links;
use link_net::FieldSet;
use std::alloc::{AllocError, Global};

/// The text of a network document but for its links.
fn rest_text(alloc: Global, nodes: u32, phase: u8, sets: &[FieldSet]) -> Result<String, AllocError>
    requires { AreRising sets.now }
    ensures { IfOk result (λ s. IsDocumentText false (rest_document nodes phase sets.now) (string_bytes s)) }
{
    let table = rest_table(alloc, nodes, phase, sets)?;
    match toml::table_to_string(alloc, &table) {
        Ok(text) => Ok(text),
        Err(_) => Err(AllocError),
    }
}

/// The text of a network file with these links, this phase and these field sets. Each link has a line of its own, and
/// stands with its weight where that is not 1.
pub fn write_network(
    alloc: Global,
    list: &LinkList,
    phase: u8,
    sets: &[FieldSet],
) -> Result<Vec<u8>, AllocError>
    requires phase { phase ≤ 2 }
    requires rising { AreRising sets.now }
    ensures lines { IfOk result (λ bytes. (rest : List ℕ) × (bytes.items ≡ links_text list.now.links ++ rest)) }
    ensures reads_back { IfOk result (λ bytes. reading_of bytes.items ≡ Ok (described list.now phase sets.now)) }
{
    let rest = rest_text(alloc, list.nodes(), phase, sets)?;
    let mut out = String::new(alloc);
    put_links(&mut out, list.links())?;
    out.push_str(rest.as_str())?;
    Ok(out.into_bytes())
}
