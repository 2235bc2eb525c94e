//! The links between nodes.
ghost use Rattle.std.specs.Prelude.{◌≡◌, ◌≢◌, map, Ok, Err, IfOk, IfErr};
ghost use Rattle.serde_json.specs.View.{view};
ghost use Rattle.import_formats.specs.declared.json.fault.JsonFault.TheVariants.{Memory};
ghost use Rattle.import_formats.specs.json.Graphs.{IsAnswer, end_in, weight_in, link_in, links_from};

use crate::json::fault::{JsonFault, LinkEnd, LinkFault, LinkList};
use crate::json::ids::{Holder, id_in};
use crate::json::weights::member_weight;
use import_lines::Weight;
use import_links::PlacedLink;
use net_names::NodeNames;
use serde_json::Value;
use std::alloc::Global;

/// The number of the node at an end of the link at a place.
fn end_in(
    alloc: Global,
    names: &NodeNames,
    list: LinkList,
    place: u64,
    end: LinkEnd,
    link: &Value,
) -> Result<u32, JsonFault>
    ensures number { IsAnswer (λ n. n) (end_in names.now list place end (view link.now)) result }
{
    let id = id_in(alloc, Holder::End { list, place, end }, end.key(), link)?;
    match names.number_of(id.as_str()) {
        Some(number) => Ok(number),
        None => Err(JsonFault::BadLink {
            list,
            place,
            fault: LinkFault::NoNode { end },
        }),
    }
}

/// The weight of the link at a place.
fn weight_in(
    list: LinkList,
    place: u64,
    factor: Option<u32>,
    link: &Value,
) -> Result<Weight, JsonFault>
    ensures { result ≡ weight_in list place factor (view link.now) }
{
    match member_weight(factor, link.get("weight")) {
        Ok(weight) => Ok(weight),
        Err(fault) => Err(JsonFault::BadLink {
            list,
            place,
            fault: LinkFault::Weight(fault),
        }),
    }
}

/// The link at a place.
fn link_in(
    alloc: Global,
    names: &NodeNames,
    factor: Option<u32>,
    list: LinkList,
    place: u64,
    link: &Value,
) -> Result<PlacedLink, JsonFault>
    ensures link { IsAnswer (λ p. p) (link_in names.now factor list place (view link.now)) result }
{
    let first = end_in(alloc, names, list, place, LinkEnd::Source, link)?;
    let second = end_in(alloc, names, list, place, LinkEnd::Target, link)?;
    let weight = weight_in(list, place, factor, link)?;
    Ok(PlacedLink {
        link: (first, second, weight.value),
        line: place,
        exact: weight.exact,
    })
}

/// The links of a list, in their order, or the fault of the first that is bad.
pub(crate) fn links_in(
    alloc: Global,
    names: &NodeNames,
    factor: Option<u32>,
    list: LinkList,
    links: &[Value],
) -> Result<Vec<PlacedLink>, JsonFault>
    ensures links { IfOk result (λ placed. links_from names.now factor list 0 (map view links.now) ≡ Ok placed.items) }
    ensures fault { IfErr result (λ fault. fault ≢ Memory → links_from names.now factor list 0 (map view links.now) ≡ Err fault) }
{
    let mut placed = Vec::with_capacity(alloc, links.len())?;
    for (place, link) in links.iter().enumerate() {
        let link = link_in(alloc, names, factor, list, place as u64, link)?;
        placed.push(link)?;
    }
    Ok(placed)
}
