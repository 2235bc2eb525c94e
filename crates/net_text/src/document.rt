//! The document that a network is written as, but for its links.
ghost use Rattle.std.specs.Prelude.{◌≡◌, map, IfOk, OnOk};
ghost use Rattle.link_net.specs.Names.{AreRising};
ghost use Rattle.toml.specs.Data.{array};
ghost use Rattle.toml.specs.View.{view, table_view, items_of};
ghost use Rattle.net_text.specs.Written.{pair_data, put_member, sets_members, rest_document};

use link_net::FieldSet;
use std::alloc::{AllocError, Global};
use toml::{Table, Value};

/// Puts a value under a key.
fn put(alloc: Global, table: &mut Table, key: &str, value: Value) -> Result<(), AllocError>
    ensures { OnOk result (table_view table.new ≡ put_member key.now (view value) (table_view table.old)) }
{
    let key = String::from_str(alloc, key)?;
    table.insert(key, value)?;
    Ok(())
}

/// A pair as an array.
fn pair_value(alloc: Global, pair: &(i64, i64)) -> Result<Value, AllocError>
    ensures { IfOk result (λ v. view v ≡ pair_data pair.now) }
{
    let mut items = Vec::with_capacity(alloc, 2)?;
    items.push(Value::Integer(pair.0))?;
    items.push(Value::Integer(pair.1))?;
    Ok(Value::Array(items))
}

/// The pairs as an array of arrays.
fn pairs_value(alloc: Global, pairs: &[(i64, i64)]) -> Result<Value, AllocError>
    ensures { IfOk result (λ v. view v ≡ array (items_of (map pair_data pairs.now))) }
{
    let mut items = Vec::with_capacity(alloc, pairs.len())?;
    for pair in pairs {
        let value = pair_value(alloc, pair)?;
        items.push(value)?;
    }
    Ok(Value::Array(items))
}

/// The table of field sets.
fn sets_table(alloc: Global, sets: &[FieldSet]) -> Result<Table, AllocError>
    requires { AreRising sets.now }
    ensures { IfOk result (λ t. table_view t ≡ sets_members sets.now) }
{
    let mut table = Table::new(alloc);
    for set in sets {
        let value = pairs_value(alloc, set.pairs.as_slice())?;
        put(alloc, &mut table, set.name.as_str(), value)?;
    }
    Ok(table)
}

/// The table of a network file but for its links; without field sets it has no `set`.
pub(crate) fn rest_table(
    alloc: Global,
    nodes: u32,
    phase: u8,
    sets: &[FieldSet],
) -> Result<Table, AllocError>
    requires { AreRising sets.now }
    ensures { IfOk result (λ t. table_view t ≡ rest_document nodes phase sets.now) }
{
    let mut table = Table::new(alloc);
    put(alloc, &mut table, "nodes", Value::Integer(nodes as i64))?;
    put(alloc, &mut table, "phase", Value::Integer(phase as i64))?;
    if !sets.is_empty() {
        let sets = Value::Table(sets_table(alloc, sets)?);
        put(alloc, &mut table, "set", sets)?;
    }
    Ok(table)
}
