//! The values of one field, node by node.
ghost use Rattle.std.specs.Prelude.{◌++◌, pos, option_map, option_to_list, OnOk, ◌≡◌, ◌<◌, ◌≤◌, ◌^◌, ℕ, ◌==◌, ◌&&◌, nat_le, not, true, length, replicate, slice_index_or, is_none, Some, None, IfOk, IsTrue, if◌then◌else◌};
ghost use Rattle.std.specs.List.{list_any, slice_get};
ghost use Rattle.std.specs.Option.{option_or};
ghost use Rattle.net_initial.specs.Opened.{is_below, number_of, node_of, is_entry, is_undefined, given, chooses, value_at, opened_value, shown_pairs};

use crate::{Chosen, Opening, Values};
use std::alloc::{AllocError, Global};

/// Whether the number lies from 0 on, below the bound.
fn is_below(bound: u64, number: i64) -> bool
    requires bound { bound < 2 ^ 63 }
    ensures inside { result ≡ is_below bound number }
{
    number >= 0 && number < bound as i64
}

/// The number as one below the bound, where it lies there.
fn natural(bound: u64, number: i64) -> u64
    requires inside { is_below bound number ≡ true }
    ensures value { result ≡ number_of number }
    ensures below { result < bound }
{
    number as u64
}

/// Puts the value of a pair into the place of its node, or says that the pair has no node or no word, or a node that has a
/// value.
fn put_pair(table: &mut [Option<u32>], pair: &(i64, i64)) -> bool
    requires few { length table.old ≤ 4294967295 }
    ensures fits { result ≡ (is_entry (length table.old) pair.now && is_none (slice_index_or table.old (node_of pair.now) None)) }
    ensures put { IsTrue result → (u : ℕ) → u < length table.old
        → slice_index_or table.new u None ≡ (if node_of pair.now == u then Some (number_of pair.now.1) else slice_index_or table.old u None) }
{
    let nodes = table.len() as u64;
    if !is_below(nodes, pair.0) || !is_below(4_294_967_296, pair.1) {
        return false;
    }
    let node = natural(nodes, pair.0) as usize;
    let value = natural(4_294_967_296, pair.1) as u32;
    if table[node].is_some() {
        return false;
    }
    table[node] = Some(value);
    true
}

/// Puts the values of pairs into a table with no values, or says that what they give is not defined.
pub(crate) fn put_pairs(table: &mut [Option<u32>], pairs: &[(i64, i64)]) -> bool
    requires few { length table.old ≤ 4294967295 }
    requires fresh { table.old ≡ replicate (length table.old) None }
    ensures fits { result ≡ not (is_undefined (length table.old) pairs.now) }
    ensures given { IsTrue result → (u : ℕ) → u < length table.old → slice_index_or table.new u None ≡ given pairs.now u }
{
    for pair in pairs {
        if !put_pair(table, pair) {
            return false;
        }
    }
    true
}

/// Puts a value into the place of a node, where the table has it.
fn put_node(table: &mut [Option<u32>], node: u32, value: u32)
    ensures { (u : ℕ) → u < length table.old
        → slice_index_or table.new u None ≡ (if node == u then Some value else slice_index_or table.old u None) }
{
    let node = node as usize;
    if node < table.len() {
        table[node] = Some(value);
    }
}

/// Puts a value into the places of all nodes.
fn put_every(table: &mut [Option<u32>], value: u32)
    ensures { (u : ℕ) → u < length table.old → slice_index_or table.new u None ≡ Some value }
{
    for node in 0..table.len() {
        table[node] = Some(value);
    }
}

/// Puts a value into the places of the nodes from one to another, both included.
fn put_range(table: &mut [Option<u32>], first: u32, last: u32, value: u32)
    ensures { (u : ℕ) → u < length table.old
        → slice_index_or table.new u None ≡ (if nat_le first u && nat_le u last then Some value else slice_index_or table.old u None) }
{
    let end = table.len().min(last as usize + 1);
    for node in first as usize..end {
        table[node] = Some(value);
    }
}

/// Puts a value into the places of some nodes.
fn put_these(table: &mut [Option<u32>], nodes: &[u32], value: u32)
    ensures { (u : ℕ) → u < length table.old
        → slice_index_or table.new u None ≡ (if list_any (λ w. w == u) nodes.now then Some value else slice_index_or table.old u None) }
{
    for node in nodes {
        put_node(table, *node, value);
    }
}

/// Puts a value into the places of the nodes that are chosen.
fn put_chosen(table: &mut [Option<u32>], nodes: &Chosen, value: u32)
    ensures { (u : ℕ) → u < length table.old
        → slice_index_or table.new u None ≡ (if chooses nodes.now u then Some value else slice_index_or table.old u None) }
{
    match nodes {
        Chosen::Every => put_every(table, value),
        Chosen::One(node) => put_node(table, *node, value),
        Chosen::Range { first, last } => put_range(table, *first, *last, value),
        Chosen::These(nodes) => put_these(table, nodes.as_slice(), value),
    }
}

/// Puts values into the places of the nodes from node 0 on, as far as the table has them.
fn put_each(table: &mut [Option<u32>], values: &[u32])
    ensures { (u : ℕ) → u < length table.old
        → slice_index_or table.new u None ≡ option_or (slice_get values.now u) (slice_index_or table.old u None) }
{
    let end = table.len().min(values.len());
    for node in 0..end {
        table[node] = Some(values[node]);
    }
}

/// Puts values into the places of their nodes.
fn put_values(table: &mut [Option<u32>], values: &Values)
    ensures { (u : ℕ) → u < length table.old
        → slice_index_or table.new u None ≡ option_or (value_at values.now u) (slice_index_or table.old u None) }
{
    match values {
        Values::Same { nodes, value } => put_chosen(table, nodes, *value),
        Values::Each(values) => put_each(table, values.as_slice()),
    }
}

/// Puts the values of the openings of a field into the places of their nodes, the later ones over the earlier ones.
pub(crate) fn put_openings(table: &mut [Option<u32>], openings: &[Opening], field: &str)
    ensures { (u : ℕ) → u < length table.old
        → slice_index_or table.new u None ≡ opened_value openings.now field.now u (slice_index_or table.old u None) }
{
    for opening in openings {
        if opening.field.as_str() == field {
            put_values(table, &opening.values);
        }
    }
}

/// Puts the pair of a node after the others, where the node has a value.
fn put_shown(pairs: &mut Vec<(i64, i64)>, node: usize, value: Option<u32>) -> Result<(), AllocError>
    requires { node < 4294967295 }
    ensures { OnOk result (pairs.new.items ≡ pairs.old.items ++ option_to_list (option_map (λ v. (pos node, pos v)) value)) }
{
    if let Some(value) = value {
        pairs.push((node as i64, value as i64))?;
    }
    Ok(())
}

/// The values of a table as pairs, by rising number of the nodes.
pub(crate) fn shown_pairs(
    alloc: Global,
    table: &[Option<u32>],
) -> Result<Vec<(i64, i64)>, AllocError>
    requires { length table.now ≤ 4294967295 }
    ensures { IfOk result (λ v. v.items ≡ shown_pairs (length table.now) (λ u. slice_index_or table.now u None)) }
{
    let mut pairs = Vec::new(alloc);
    for node in 0..table.len() {
        put_shown(&mut pairs, node, table[node])?;
    }
    Ok(pairs)
}
