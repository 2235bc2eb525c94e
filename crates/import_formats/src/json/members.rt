//! The members of a graph.
ghost use Rattle.std.specs.Prelude.{◌≡◌, map, option_map, Ok, Err, MatchResult};
ghost use Rattle.serde_json.specs.View.{view};
ghost use Rattle.import_formats.specs.json.Graphs.{is_directed, items_in, node_list, link_list};

use crate::json::fault::{JsonFault, LinkList};
use serde_json::Value;

/// Whether a graph says that it is directed.
pub(crate) fn is_directed(graph: &Value) -> bool
    ensures { result ≡ is_directed (view graph.now) }
{
    match graph.get("directed") {
        Some(value) => value.as_bool().unwrap_or(false),
        None => false,
    }
}

/// The items of the list that is the member of this name; none where there is no such list.
fn items_in<'a>(key: &str, graph: &'a Value) -> Option<&'a [Value]>
    ensures { option_map (λ items. map view items.now) result ≡ items_in key.now (view graph.now) }
{
    let items = graph.get(key)?.as_array()?;
    Some(items.as_slice())
}

/// The nodes of a graph.
pub(crate) fn node_list(graph: &Value) -> Result<&[Value], JsonFault>
    ensures { MatchResult result (λ nodes. node_list (view graph.now) ≡ Ok (map view nodes.now)) (λ fault. node_list (view graph.now) ≡ Err fault) }
{
    match items_in("nodes", graph) {
        Some(nodes) => Ok(nodes),
        None => Err(JsonFault::NoNodes),
    }
}

/// The links of a graph, and the list that has them.
pub(crate) fn link_list(graph: &Value) -> Result<(LinkList, &[Value]), JsonFault>
    ensures { MatchResult result (λ list. link_list (view graph.now) ≡ Ok (list.0, map view list.1.now)) (λ fault. link_list (view graph.now) ≡ Err fault) }
{
    if let Some(links) = items_in("links", graph) {
        return Ok((LinkList::Links, links));
    }
    match items_in("edges", graph) {
        Some(links) => Ok((LinkList::Edges, links)),
        None => Err(JsonFault::NoLinks),
    }
}
