//! The names of nodes.
ghost use Rattle.std.specs.Prelude.{◌≡◌, ◌≢◌, [], codes, map, Ok, Err, IfOk, IfErr, OnOk};
ghost use Rattle.serde_json.specs.View.{view};
ghost use Rattle.net_names.specs.Naming.{AreNames};
ghost use Rattle.import_formats.specs.declared.json.fault.JsonFault.TheVariants.{Memory};
ghost use Rattle.import_formats.specs.json.Graphs.{name_fault, with_new, with_node, names_from};

use crate::json::fault::{JsonFault, NodeFault};
use crate::json::ids::{Holder, id_in};
use net_names::{NamesFault, NodeNames};
use serde_json::Value;
use std::alloc::Global;

/// Why the node at a place has no number.
fn name_fault(place: u64, fault: NamesFault) -> JsonFault
    ensures { result ≡ name_fault place fault }
{
    match fault {
        NamesFault::BadName => JsonFault::BadNode {
            place,
            fault: NodeFault::BadName,
        },
        NamesFault::TooManyNames => JsonFault::BadNode {
            place,
            fault: NodeFault::TooManyNodes,
        },
        NamesFault::Memory => JsonFault::Memory,
    }
}

/// Puts the name of the node at a place after the others, of which there may be so many.
fn put_name(names: &mut NodeNames, place: u64, name: &str, most: u32) -> Result<(), JsonFault>
    ensures names { OnOk result (with_new most place names.old name.now ≡ Ok names.new) }
    ensures fault { IfErr result (λ fault. fault ≢ Memory → with_new most place names.old name.now ≡ Err fault) }
{
    if names.number_of(name).is_some() {
        return Err(JsonFault::BadNode {
            place,
            fault: NodeFault::SameName,
        });
    }
    match names.number(name, most) {
        Ok(_) => Ok(()),
        Err(fault) => Err(name_fault(place, fault)),
    }
}

/// Puts the name of the node at a place after the others, of which there may be so many.
fn put_node(
    alloc: Global,
    names: &mut NodeNames,
    place: u64,
    node: &Value,
    most: u32,
) -> Result<(), JsonFault>
    ensures names { OnOk result (with_node most place names.old (view node.now) ≡ Ok names.new) }
    ensures fault { IfErr result (λ fault. fault ≢ Memory → with_node most place names.old (view node.now) ≡ Err fault) }
{
    let id = id_in(alloc, Holder::Node { place }, "id", node)?;
    put_name(names, place, id.as_str(), most)
}

/// The names of nodes, in their order, so many at most; or the fault of the first that has none.
pub(crate) fn names_in(alloc: Global, nodes: &[Value], most: u32) -> Result<NodeNames, JsonFault>
    ensures names { IfOk result (λ names. names_from most 0 [] (map view nodes.now) ≡ Ok names) }
    ensures fault { IfErr result (λ fault. fault ≢ Memory → names_from most 0 [] (map view nodes.now) ≡ Err fault) }
{
    let mut names = NodeNames::new(alloc);
    for (place, node) in nodes.iter().enumerate() {
        put_node(alloc, &mut names, place as u64, node, most)?;
    }
    Ok(names)
}
