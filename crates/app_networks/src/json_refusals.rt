//! What is told of a graph in node-link JSON that has no network.

use crate::import_refusals::{by_form, told_of};
use crate::import_request::Format;
use app_files::{Told, put_place, weight_told};
use app_table::Draft;
use import_formats::json::{IdFault, JsonFault, LinkEnd, LinkFault, LinkList, NodeFault};
use import_lines::WeightFault;
use import_links::SettleFault;
use import_network::ImportFault;
use serde_json::Value;
use std::alloc::{AllocError, Global};

/// What is wrong with an id.
fn id_told(fault: IdFault) -> (&'static str, &'static str) {
    match fault {
        IdFault::NoId => (
            "NoId",
            "there is no such member: expected the id of a node, a string or a whole number",
        ),
        IdFault::BadId => (
            "BadId",
            "expected the id of a node, a string or a whole number from 0",
        ),
    }
}

/// What is wrong with a node.
fn node_told(is_packed: bool, fault: NodeFault) -> (&'static str, &'static str) {
    match fault {
        NodeFault::Id(fault) => id_told(fault),
        NodeFault::SameName => ("SameName", "an earlier node has this id"),
        NodeFault::BadName => (
            "BadName",
            "a name has 1 to 65536 bytes, and no control character",
        ),
        NodeFault::TooManyNodes => (
            "TooManyNodes",
            by_form(
                is_packed,
                "with this node there are more than 65536 nodes",
                "with this node there are more than 4294967295 nodes",
            ),
        ),
    }
}

/// What is wrong with a link.
fn link_told(fault: LinkFault) -> (&'static str, &'static str) {
    match fault {
        LinkFault::End { fault, .. } => id_told(fault),
        LinkFault::NoNode { .. } => ("NoNode", "no node is called"),
        LinkFault::Weight(WeightFault::BadWeight) => ("BadWeight", "the weight is no number"),
        LinkFault::Weight(fault) => weight_told(fault),
    }
}

/// A fault that has no line.
fn without_line(told: (&'static str, &'static str)) -> Told {
    (None, told.0, told.1)
}

/// What is wrong with a text of node-link JSON.
pub(crate) fn json_told(is_packed: bool, fault: JsonFault) -> Told {
    match fault {
        JsonFault::NotUtf8 => (None, "NotUtf8", "the text is not UTF-8"),
        JsonFault::NotJson { line, .. } => (Some(line), "NotJson", "the text is no JSON"),
        JsonFault::Directed => (
            None,
            "Directed",
            "the links of a directed graph have a direction (--undirected leaves it aside, and --parallel takes both directions as one)",
        ),
        JsonFault::NoNodes => (
            None,
            "NoNodeList",
            "expected an object with a list `nodes`, as NetworkX's node_link_data gives it",
        ),
        JsonFault::NoLinks => (
            None,
            "NoLinkList",
            "expected an object with a list `links` or `edges`, as NetworkX's node_link_data gives it",
        ),
        JsonFault::BadNode { fault, .. } => without_line(node_told(is_packed, fault)),
        JsonFault::BadLink { fault, .. } => without_line(link_told(fault)),
        JsonFault::Memory => (None, "Memory", ""),
    }
}

/// The value that a text of JSON is.
fn value_of(alloc: Global, text: &[u8]) -> Result<Value, AllocError> {
    match Value::from_slice(alloc, text) {
        Ok(value) => Ok(value),
        Err(_) => Err(AllocError),
    }
}

/// The list that has the links of this graph.
fn list_of(graph: &Value) -> LinkList {
    match graph.get("links") {
        Some(Value::Array(_)) => LinkList::Links,
        _ => LinkList::Edges,
    }
}

/// The list that has the links of a graph.
fn list_in(alloc: Global, text: &[u8]) -> Result<LinkList, AllocError> {
    let graph = value_of(alloc, text)?;
    Ok(list_of(&graph))
}

/// Adds the place of an item of a list: `links[3]`.
fn put_item(draft: &mut Draft, list: &str, place: u64) {
    draft.put(list);
    draft.put("[");
    draft.put_count(place);
    draft.put("]");
}

/// The member of a link that is wrong.
fn link_member(fault: LinkFault) -> &'static str {
    match fault {
        LinkFault::End { end, .. } => end.key(),
        LinkFault::NoNode { end } => end.key(),
        LinkFault::Weight(_) => "weight",
    }
}

/// Adds the member that is wrong, where one is.
fn put_json_member(draft: &mut Draft, fault: JsonFault) {
    match fault {
        JsonFault::BadNode { place, .. } => {
            draft.put(": ");
            put_item(draft, "nodes", place);
            draft.put(".id");
        }
        JsonFault::BadLink { list, place, fault } => {
            draft.put(": ");
            put_item(draft, list.key(), place);
            draft.put(".");
            draft.put(link_member(fault));
        }
        _ => {}
    }
}

/// Adds the link that is wrong.
fn put_link(alloc: Global, draft: &mut Draft, text: &[u8], place: u64) -> Result<(), AllocError> {
    let list = list_in(alloc, text)?;
    draft.put(": ");
    put_item(draft, list.key(), place);
    Ok(())
}

/// Adds the member that is wrong, where one is.
fn put_member(
    alloc: Global,
    draft: &mut Draft,
    text: &[u8],
    fault: ImportFault,
) -> Result<(), AllocError> {
    match fault {
        ImportFault::Json(fault) => {
            put_json_member(draft, fault);
            Ok(())
        }
        ImportFault::Settle(SettleFault::SelfLoop { line }) => put_link(alloc, draft, text, line),
        ImportFault::Settle(SettleFault::ParallelEdge { line, .. }) => {
            put_link(alloc, draft, text, line)
        }
        _ => Ok(()),
    }
}

/// Adds where something is wrong: the line of what is no JSON, else the member.
fn put_json_place(
    alloc: Global,
    draft: &mut Draft,
    name: &str,
    text: &[u8],
    fault: ImportFault,
) -> Result<(), AllocError> {
    if let ImportFault::Json(JsonFault::NotJson { line, .. }) = fault {
        put_place(draft, name, Some(line));
        return Ok(());
    }
    put_place(draft, name, None);
    put_member(alloc, draft, text, fault)
}

/// The id that stands at an end of a link, where one stands there.
fn id_at<'v>(graph: &'v Value, list: LinkList, place: u64, end: LinkEnd) -> Option<&'v Value> {
    let links = graph.get(list.key())?;
    let link = links.get(place as usize)?;
    link.get(end.key())
}

/// Adds an id.
fn put_found_id(alloc: Global, draft: &mut Draft, id: &Value) -> Result<(), AllocError> {
    let id = id.to_string(alloc)?;
    draft.put(" ");
    draft.put(id.as_str());
    Ok(())
}

/// Adds an id, where there is one.
fn put_any_id(alloc: Global, draft: &mut Draft, id: Option<&Value>) -> Result<(), AllocError> {
    match id {
        Some(id) => put_found_id(alloc, draft, id),
        None => Ok(()),
    }
}

/// Adds the id that stands at an end of a link.
fn put_id(
    alloc: Global,
    draft: &mut Draft,
    text: &[u8],
    list: LinkList,
    place: u64,
    end: LinkEnd,
) -> Result<(), AllocError> {
    let graph = value_of(alloc, text)?;
    put_any_id(alloc, draft, id_at(&graph, list, place, end))
}

/// Adds where the earlier of two links stands.
fn put_earlier(
    alloc: Global,
    draft: &mut Draft,
    text: &[u8],
    place: u64,
) -> Result<(), AllocError> {
    let list = list_in(alloc, text)?;
    draft.put("; it is ");
    put_item(draft, list.key(), place);
    Ok(())
}

/// Adds what is told beside: where the text is no JSON, the id that is none of a node, the earlier link of two.
fn put_json_detail(
    alloc: Global,
    draft: &mut Draft,
    text: &[u8],
    fault: ImportFault,
) -> Result<(), AllocError> {
    match fault {
        ImportFault::Json(JsonFault::NotJson { column, .. }) => {
            draft.put(" from about column ");
            draft.put_count(column);
            draft.put(" on");
            Ok(())
        }
        ImportFault::Json(
            JsonFault::BadLink {
                list,
                place,
                fault: LinkFault::NoNode { end },
            },
        ) => put_id(alloc, draft, text, list, place, end),
        ImportFault::Settle(SettleFault::ParallelEdge { first, .. }) => {
            put_earlier(alloc, draft, text, first)
        }
        _ => Ok(()),
    }
}

/// Adds the line that names the fault.
fn put_head(draft: &mut Draft, kind: &str) {
    draft.put(Format::Json.name());
    draft.put(" ");
    draft.put(kind);
    draft.put("\n");
}

/// Adds where something is wrong, why, and what is told beside.
fn put_told(
    alloc: Global,
    draft: &mut Draft,
    name: &str,
    text: &[u8],
    why: &str,
    fault: ImportFault,
) -> Result<(), AllocError> {
    put_json_place(alloc, draft, name, text, fault)?;
    draft.put(": ");
    draft.put(why);
    put_json_detail(alloc, draft, text, fault)
}

/// What is told where a text of node-link JSON has no network of this form, and after it the way to one, where there is a
/// way.
pub(crate) fn json_refusal(
    alloc: Global,
    name: &str,
    text: &[u8],
    is_packed: bool,
    fault: ImportFault,
    way: &str,
) -> Result<String, AllocError> {
    let (_, kind, why) = told_of(is_packed, fault);
    if kind == "Memory" {
        return Err(AllocError);
    }
    let mut draft = Draft::new(alloc);
    put_head(&mut draft, kind);
    put_told(alloc, &mut draft, name, text, why, fault)?;
    draft.put(way);
    draft.end()
}
