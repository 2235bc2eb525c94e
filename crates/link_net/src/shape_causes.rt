//! Why the shape of a document is refused.
ghost use Rattle.std.specs.Prelude.{◌≡◌, ◌≢◌, option_map, is_none, position, IfOk, IfErr, IfSome};
ghost use Rattle.toml.specs.Data.{no_members};
ghost use Rattle.toml.specs.View.{view, table_view};
ghost use Rattle.link_net.specs.Causes.{fault_of, fault_if, IsSetCause, IsShapeCause};
ghost use Rattle.link_net.specs.Document.{pair_of, link_of, sets_of, nodes_of, links_of, phase_of, field_sets_of, draft_of};

use crate::document::{member, read_link, read_pair};
use crate::{NetCause, NetFault};
use std::alloc::{AllocError, Global};
use toml::{Table, Value};

/// Whether the value is no link.
fn is_no_link(value: &Value) -> bool
    ensures { result ≡ is_none (link_of (view value.now)) }
{
    read_link(value).is_none()
}

/// The first of the values that is no link.
fn first_no_link(values: &[Value]) -> Option<usize>
    ensures { result ≡ position (λ v. is_none (link_of (view v))) values.now }
{
    values.iter().position(is_no_link)
}

/// Whether the value is no pair.
fn is_no_pair(value: &Value) -> bool
    ensures { result ≡ is_none (pair_of (view value.now)) }
{
    read_pair(value).is_none()
}

/// The first of the values that is no pair.
fn first_no_pair(values: &[Value]) -> Option<usize>
    ensures { result ≡ position (λ v. is_none (pair_of (view v))) values.now }
{
    values.iter().position(is_no_pair)
}

/// Why the value at `nodes` is refused.
fn nodes_cause(table: &Table) -> Option<NetCause>
    ensures agrees { option_map fault_of result ≡ fault_if (is_none (nodes_of (table_view table.now))) NetFault.BadShape }
    ensures named { IfSome result (IsShapeCause (table_view table.now)) }
{
    let Some(value) = member(table, "nodes") else {
        return Some(NetCause::NodesMissing);
    };
    if value.as_integer().is_none() {
        return Some(NetCause::NodesShape);
    }
    None
}

/// Why the value at `links` is refused.
fn links_cause(table: &Table) -> Option<NetCause>
    ensures agrees { option_map fault_of result ≡ fault_if (is_none (links_of (table_view table.now))) NetFault.BadShape }
    ensures named { IfSome result (IsShapeCause (table_view table.now)) }
{
    let Some(value) = member(table, "links") else {
        return Some(NetCause::LinksMissing);
    };
    let Some(array) = value.as_array() else {
        return Some(NetCause::LinksShape);
    };
    let link = first_no_link(array.as_slice())?;
    Some(NetCause::LinkShape { link })
}

/// Why the value at `phase` is refused.
fn phase_cause(table: &Table) -> Option<NetCause>
    ensures agrees { option_map fault_of result ≡ fault_if (is_none (phase_of (table_view table.now))) NetFault.BadShape }
    ensures named { IfSome result (IsShapeCause (table_view table.now)) }
{
    let value = member(table, "phase")?;
    if value.as_integer().is_none() {
        return Some(NetCause::PhaseShape);
    }
    None
}

/// Why the table at `set` is refused.
fn set_cause(alloc: Global, sets: &Table) -> Result<Option<NetCause>, AllocError>
    ensures agrees { IfOk result (λ cause. option_map fault_of cause ≡ fault_if (is_none (sets_of (table_view sets.now))) NetFault.BadShape) }
    ensures named { IfOk result (λ cause. IfSome cause (IsSetCause (table_view sets.now))) }
{
    for (key, value) in sets.iter() {
        let Some(array) = value.as_array() else {
            let key = String::from_str(alloc, key.as_str())?;
            return Ok(Some(NetCause::SetValueShape { key }));
        };
        if let Some(entry) = first_no_pair(array.as_slice()) {
            let key = String::from_str(alloc, key.as_str())?;
            return Ok(Some(NetCause::PairShape { key, entry }));
        }
    }
    Ok(None)
}

/// Why the value at `set` is refused.
fn sets_cause(alloc: Global, table: &Table) -> Result<Option<NetCause>, AllocError>
    ensures agrees { IfOk result (λ cause. option_map fault_of cause ≡ fault_if (is_none (field_sets_of (table_view table.now))) NetFault.BadShape) }
    ensures named { IfOk result (λ cause. IfSome cause (IsShapeCause (table_view table.now))) }
{
    let Some(value) = member(table, "set") else {
        return Ok(None);
    };
    let Some(sets) = value.as_table() else {
        return Ok(Some(NetCause::SetShape));
    };
    let cause = set_cause(alloc, sets)?;
    Ok(cause)
}

/// Why the table is no draft.
pub(crate) fn shape_cause(alloc: Global, table: &Table) -> Result<Option<NetCause>, AllocError>
    ensures agrees { IfOk result (λ cause. option_map fault_of cause ≡ fault_if (is_none (draft_of (table_view table.now))) NetFault.BadShape) }
    ensures named { IfOk result (λ cause. IfSome cause (IsShapeCause (table_view table.now))) }
    ensures at_once { IfErr result (λ _. table_view table.now ≢ no_members) }
{
    if let Some(cause) = nodes_cause(table) {
        return Ok(Some(cause));
    }
    if let Some(cause) = links_cause(table) {
        return Ok(Some(cause));
    }
    if let Some(cause) = phase_cause(table) {
        return Ok(Some(cause));
    }
    let cause = sets_cause(alloc, table)?;
    Ok(cause)
}
