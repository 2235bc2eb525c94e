//! Graphs that are read.
ghost use Rattle.std.specs.Prelude.{◌≡◌, ◌≢◌, Ok, Err, MatchResult};
ghost use Rattle.serde_json.specs.Errors.{IsMemory};
ghost use Rattle.serde_json.specs.View.{view};
ghost use Rattle.import_formats.specs.declared.json.fault.JsonFault.TheVariants.{NotJson, Memory};
ghost use Rattle.import_formats.specs.json.Graphs.{IsAnswer, graph_in, graph_of, value_of, unplaced};
ghost use Rattle.import_formats.specs.json.View.{graph_view};

use crate::json::fault::JsonFault;
use crate::json::links::links_in;
use crate::json::members::{is_directed, link_list, node_list};
use crate::json::nodes::names_in;
use import_links::PlacedLink;
use net_names::NodeNames;
use serde_json::error::Category;
use serde_json::{Error, Value};
use std::alloc::Global;
use std::str;

/// How a text is read.
#[derive(Clone, Copy, Default)]
pub struct JsonReading {
    /// What each weight is multiplied by, and whether decimal ones are taken.
    pub factor: Option<u32>,
    /// Whether a directed graph is read as an undirected one.
    pub undirected: bool,
}

/// A graph that a text says.
#[derive(Drop)]
pub struct JsonGraph {
    /// The names of its nodes, in their order.
    pub names: NodeNames,
    /// Its links, between the numbers of these names, in their order. The line of each is its place in its list, counted
    /// from 0.
    pub links: Vec<PlacedLink>,
}

/// Why a text is no JSON.
fn parse_fault(error: &Error) -> JsonFault
    ensures { result ≢ Memory → (¬ IsMemory error.now) × (unplaced result ≡ NotJson 0 0) }
{
    match error.classify() {
        Category::Memory => JsonFault::Memory,
        _ => JsonFault::NotJson {
            line: error.line() as u64,
            column: error.column() as u64,
        },
    }
}

/// The value that a text of JSON is.
fn value_of(alloc: Global, bytes: &[u8]) -> Result<Value, JsonFault>
    ensures { MatchResult result (λ v. value_of bytes.now ≡ Ok (view v)) (λ fault. fault ≢ Memory → value_of bytes.now ≡ Err (unplaced fault)) }
{
    let Ok(text) = str::from_utf8(bytes) else {
        return Err(JsonFault::NotUtf8);
    };
    match Value::from_str(alloc, text) {
        Ok(value) => Ok(value),
        Err(error) => Err(parse_fault(&error)),
    }
}

/// The graph that a value says, of so many nodes at most.
fn graph_in(
    alloc: Global,
    graph: &Value,
    reading: &JsonReading,
    most: u32,
) -> Result<JsonGraph, JsonFault>
    ensures { IsAnswer graph_view (graph_in most reading.now.undirected reading.now.factor (view graph.now)) result }
{
    if !reading.undirected && is_directed(graph) {
        return Err(JsonFault::Directed);
    }
    let nodes = node_list(graph)?;
    let (list, links) = link_list(graph)?;
    let names = names_in(alloc, nodes, most)?;
    let links = links_in(alloc, &names, reading.factor, list, links)?;
    Ok(JsonGraph { names, links })
}

/// The graph of a text in node-link JSON, as NetworkX's `node_link_data` gives it, of so many nodes at most.
///
/// The text is an object. Its member `nodes` is a list of objects, whose member `id` is the node's name: a string, or a
/// whole number from 0, which is named by its decimal digits. Its member `links`, or where that is no list `edges`, is a
/// list of objects, whose members `source` and `target` are the ids of nodes, and `weight` the weight, or 1 where there
/// is none. A weight is a whole number up to 4,294,967,295. With a factor it is any number from 0, of which a decimal one
/// is the nearest number of 64 bits in binary: times the factor, and rounded to the nearest whole number, a half up. Of a
/// member that stands twice the last counts. Other members are passed over. Objects and lists nest at most 127 deep.
///
/// Refused are, as the first fault in the order of [`JsonFault`]: what is no JSON, where `NotJson` tells about where; a
/// graph whose `directed` is `true`, unless `undirected` is set; no lists; the first bad node; the first bad link.
/// `Memory` comes only where memory runs out.
pub fn read_json(
    alloc: Global,
    text: &[u8],
    reading: &JsonReading,
    most: u32,
) -> Result<JsonGraph, JsonFault>
    ensures answer { MatchResult result (λ g. graph_of most reading.now.undirected reading.now.factor text.now ≡ Ok (graph_view g)) (λ fault. fault ≢ Memory → graph_of most reading.now.undirected reading.now.factor text.now ≡ Err (unplaced fault)) }
{
    let value = value_of(alloc, text)?;
    graph_in(alloc, &value, reading, most)
}
