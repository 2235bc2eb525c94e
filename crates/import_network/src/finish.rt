//! The network that links make.
ghost use Rattle.std.specs.Prelude.{◌≡◌, ◌≢◌, [], IfOk, IfErr, Ok, Err};
ghost use Rattle.link_net.specs.Reading.{reading_of};
ghost use Rattle.net_text.specs.Listing.{described};
ghost use Rattle.import_network.specs.declared.fault.ImportFault.TheVariants.{Memory};
ghost use Rattle.import_network.specs.Drafts.{IsFiled, IsMadeOf, filed, made};

use crate::fault::ImportFault;
use crate::imported::{Imported, count_rounded};
use crate::making::Making;
use crate::packing::packed_network;
use import_links::{Mending, PlacedLink, settle};
use link_net::FieldSet;
use net_text::{LinkList, write_network};
use std::alloc::{AllocError, Global};

/// The network file of links, of phase 0 and without initial values.
fn network_file(alloc: Global, list: &LinkList) -> Result<Vec<u8>, AllocError>
    ensures { IfOk result (λ bytes. reading_of bytes.items ≡ Ok (described list.now 0 [])) }
{
    let no_sets: Vec<FieldSet> = Vec::new(alloc);
    write_network(alloc, list, 0, no_sets.as_slice())
}

/// The network file that links between so many nodes make, beside a file of names.
fn filed(
    alloc: Global,
    nodes: u32,
    links: &[PlacedLink],
    mending: Mending,
    names: Vec<u8>,
) -> Result<Imported, ImportFault>
    ensures made { IfOk result (IsFiled mending (record { nodes = nodes; links = links.now })) }
    ensures names { IfOk result (λ imported. imported.names ≡ names) }
    ensures fault { IfErr result (λ fault. fault ≢ Memory → filed mending (record { nodes = nodes; links = links.now }) ≡ Err fault) }
{
    let settled = settle(alloc, nodes, links, mending)?;
    let network = network_file(alloc, &settled.list)?;
    Ok(Imported {
        network,
        names,
        dropped: settled.dropped as u64,
        merged: settled.merged as u64,
        rounded: count_rounded(links),
    })
}

/// What links between so many nodes make, beside a file of names.
pub(crate) fn finished(
    alloc: Global,
    nodes: u32,
    links: &[PlacedLink],
    making: Making,
    names: Vec<u8>,
) -> Result<Imported, ImportFault>
    ensures made { IfOk result (IsMadeOf making (record { nodes = nodes; links = links.now })) }
    ensures names { IfOk result (λ imported. imported.names ≡ names) }
    ensures fault { IfErr result (λ fault. fault ≢ Memory → made making (record { nodes = nodes; links = links.now }) ≡ Err fault) }
{
    match making {
        Making::File(mending) => filed(alloc, nodes, links, mending, names),
        Making::Packed(options) => packed_network(alloc, nodes, links, &options, names),
    }
}
