//! The shape of a network document: its keys and values, their numbers unchecked.
ghost use Rattle.std.specs.Prelude.{◌≡◌, false, Err, ℕ, not, string_bytes, List, option_map, option_and_then, codes, IfErr, IsSome};
ghost use Rattle.std.specs.Str.{is_utf8};
ghost use Rattle.std.specs.Option.{ok_or};
ghost use Rattle.toml.specs.Data.{get_member, as_array};
ghost use Rattle.toml.specs.View.{view, table_view, array_view};
ghost use Rattle.link_net.specs.Document.{is_known, has_unknown_key, pair_of, pairs_of, link_of, links_in, nodes_of, links_of, phase_of, sets_of, field_sets_of, draft_of};
ghost use Rattle.link_net.specs.Reading.{document_of, IsAnswer, IsAnswerBy};

use crate::draft::{Draft, DraftLinks, FieldSets};
use crate::{FieldSet, Name, NetFault, Pairs};
use std::alloc::Global;
use toml::value::Array;
use toml::{Table, Value};

/// The table that the bytes are. Bytes that are no UTF-8 take no memory.
pub(crate) fn read_table(alloc: Global, bytes: &[u8]) -> Result<Table, NetFault>
    ensures answer { IsAnswerBy table_view (ok_or (document_of bytes.now) NetFault.NotToml) result }
    ensures at_once { is_utf8 bytes.now ≡ false → result ≡ Err NetFault.NotToml }
{
    let Ok(text) = std::str::from_utf8(bytes) else {
        return Err(NetFault::NotToml);
    };
    match toml::table_from_str(alloc, text) {
        Ok(table) => Ok(table),
        Err(error) => {
            if error.is_memory() {
                Err(NetFault::Memory)
            } else {
                Err(NetFault::NotToml)
            }
        }
    }
}

/// Whether the key is one of the four.
pub(crate) fn is_known_key(key: &str) -> bool
    ensures { result ≡ is_known key.now }
{
    key == "nodes" || key == "links" || key == "phase" || key == "set"
}

/// Whether each key of the table is one of the four.
pub(crate) fn knows_keys(table: &Table) -> bool
    ensures { result ≡ not (has_unknown_key (table_view table.now)) }
{
    for (key, _value) in table.iter() {
        if !is_known_key(key.as_str()) {
            return false;
        }
    }
    true
}

/// An array of two integers.
pub(crate) fn read_pair(value: &Value) -> Option<(i64, i64)>
    ensures { result ≡ pair_of (view value.now) }
{
    let array = value.as_array()?;
    if array.len() != 2 {
        return None;
    }
    let first = array[0].as_integer()?;
    let second = array[1].as_integer()?;
    Some((first, second))
}

/// A link: an array of two or three integers. With two the weight is 1.
pub(crate) fn read_link(value: &Value) -> Option<(i64, i64, i64)>
    ensures { result ≡ link_of (view value.now) }
{
    let array = value.as_array()?;
    if array.len() != 2 && array.len() != 3 {
        return None;
    }
    let first = array[0].as_integer()?;
    let second = array[1].as_integer()?;
    if array.len() == 2 {
        return Some((first, second, 1));
    }
    let weight = array[2].as_integer()?;
    Some((first, second, weight))
}

/// An array of arrays of two integers.
fn read_pairs(alloc: Global, array: &Array) -> Result<Pairs, NetFault>
    ensures { IsAnswer (ok_or (pairs_of (array_view array.now)) NetFault.BadShape) result }
{
    let mut items = Vec::new(alloc);
    for value in array {
        let Some(pair) = read_pair(value) else {
            return Err(NetFault::BadShape);
        };
        items.push(pair)?;
    }
    Ok(Pairs::new(items))
}

/// The value at a key.
pub(crate) fn member<'a>(table: &'a Table, key: &str) -> Option<&'a Value>
    ensures { option_map (λ v. view v.now) result ≡ get_member key.now (table_view table.now) }
{
    table.get(key)
}

/// The integer at `nodes`. It takes no memory.
fn read_nodes(table: &Table) -> Result<i64, NetFault>
    ensures answer { IsAnswer (ok_or (nodes_of (table_view table.now)) NetFault.BadShape) result }
    ensures exact { result ≡ ok_or (nodes_of (table_view table.now)) NetFault.BadShape }
{
    let value = member(table, "nodes").ok_or(NetFault::BadShape)?;
    value.as_integer().ok_or(NetFault::BadShape)
}

/// An array of links.
fn read_link_array(alloc: Global, array: &Array) -> Result<DraftLinks, NetFault>
    ensures { IsAnswer (ok_or (links_in (array_view array.now)) NetFault.BadShape) result }
{
    let mut items = Vec::new(alloc);
    for value in array {
        let Some(link) = read_link(value) else {
            return Err(NetFault::BadShape);
        };
        items.push(link)?;
    }
    Ok(DraftLinks::new(items))
}

/// The links at `links`. Memory is taken only where there is an array.
fn read_links(alloc: Global, table: &Table) -> Result<DraftLinks, NetFault>
    ensures answer { IsAnswer (ok_or (links_of (table_view table.now)) NetFault.BadShape) result }
    ensures memory { IfErr result (λ fault. fault ≡ NetFault.Memory → IsSome (option_and_then as_array (get_member (codes "links") (table_view table.now)))) }
{
    let value = member(table, "links").ok_or(NetFault::BadShape)?;
    let array = value.as_array().ok_or(NetFault::BadShape)?;
    read_link_array(alloc, array)
}

/// The integer at `phase`, or 0. It takes no memory.
fn read_phase(table: &Table) -> Result<i64, NetFault>
    ensures answer { IsAnswer (ok_or (phase_of (table_view table.now)) NetFault.BadShape) result }
    ensures exact { result ≡ ok_or (phase_of (table_view table.now)) NetFault.BadShape }
{
    match member(table, "phase") {
        None => Ok(0),
        Some(value) => value.as_integer().ok_or(NetFault::BadShape),
    }
}

/// The pairs of one key of `set`. Memory is taken only where there is an array.
fn read_value_pairs(alloc: Global, value: &Value) -> Result<Pairs, NetFault>
    ensures answer { IsAnswer (ok_or (option_and_then pairs_of (as_array (view value.now))) NetFault.BadShape) result }
    ensures memory { IfErr result (λ fault. fault ≡ NetFault.Memory → IsSome (as_array (view value.now))) }
{
    let array = value.as_array().ok_or(NetFault::BadShape)?;
    read_pairs(alloc, array)
}

/// The name that a key is.
fn read_name(alloc: Global, key: &str) -> Result<Name, NetFault>
    ensures { IsAnswer (Ok key.now) result }
{
    Ok(Name::new(String::from_str(alloc, key)?))
}

/// The field sets of the table at `set`.
fn read_sets(alloc: Global, table: &Table) -> Result<FieldSets, NetFault>
    ensures { IsAnswer (ok_or (sets_of (table_view table.now)) NetFault.BadShape) result }
{
    let mut sets = Vec::new(alloc);
    for (key, value) in table.iter() {
        let pairs = read_value_pairs(alloc, value)?;
        let name = read_name(alloc, key.as_str())?;
        sets.push(FieldSet { name, pairs })?;
    }
    Ok(FieldSets::new(sets))
}

/// The field sets at `set`, or none.
fn read_field_sets(alloc: Global, table: &Table) -> Result<FieldSets, NetFault>
    ensures { IsAnswer (ok_or (field_sets_of (table_view table.now)) NetFault.BadShape) result }
{
    match member(table, "set") {
        None => Ok(FieldSets::new(Vec::new(alloc))),
        Some(value) => read_sets(alloc, value.as_table().ok_or(NetFault::BadShape)?),
    }
}

/// The table as a draft, where it has the shape of one.
pub(crate) fn read_draft(alloc: Global, table: &Table) -> Result<Draft, NetFault>
    ensures { IsAnswer (ok_or (draft_of (table_view table.now)) NetFault.BadShape) result }
{
    let nodes = read_nodes(table)?;
    let links = read_links(alloc, table)?;
    let phase = read_phase(table)?;
    let sets = read_field_sets(alloc, table)?;
    Ok(Draft {
        nodes,
        links,
        phase,
        sets,
    })
}
