//! What stands in the cells of a table.
ghost use Rattle.std.specs.Prelude.{◌≡◌, ◌≢◌, ◌≤◌, ◌++◌, ◌∷◌, [], true, length, IfOk, OnOk};
ghost use Rattle.std.specs.Bool.{OnTrue, OnFalse};
ghost use Rattle.std.specs.Fmt.{decimal};
ghost use Rattle.csv.specs.Records.{fields_of, partial_of};
ghost use Rattle.report_files.specs.tables.Csv.{no_node, cell_of, IsNode};

use csv::ByteRecord;
use net_names::NodeNames;
use std::alloc::{AllocError, Global};

/// The value that says that there is no node.
const NO_NODE: u32 = 4_294_967_295;

/// Puts a number in decimal digits.
pub(crate) fn put_number(
    alloc: Global,
    line: &mut ByteRecord,
    number: u32,
) -> Result<(), AllocError>
    requires whole { partial_of line.old ≡ [] }
    ensures cell { OnOk result (fields_of line.new ≡ fields_of line.old ++ decimal number ∷ []) }
    ensures whole { OnOk result (partial_of line.new ≡ []) }
{
    let text = format!(in alloc; "{number}")?;
    line.push_field(text.as_bytes())
}

/// Puts the name of the node whose number a value is, and nothing where it says that there is none. Whether it did.
pub(crate) fn put_node(
    line: &mut ByteRecord,
    names: &NodeNames,
    value: u32,
) -> Result<bool, AllocError>
    requires whole { partial_of line.old ≡ [] }
    ensures cell { IfOk result (λ put. OnTrue put (fields_of line.new ≡ fields_of line.old ++ cell_of names.now true value ∷ [])) }
    ensures whole { OnOk result (partial_of line.new ≡ []) }
    ensures node { IfOk result (λ put. OnTrue put (IsNode names.now value)) }
    ensures none { IfOk result (λ put. OnFalse put ((value ≢ no_node) × (length names.now ≤ value))) }
{
    if value == NO_NODE {
        line.push_field(b"")?;
        return Ok(true);
    }
    let Some(name) = names.name(value) else {
        return Ok(false);
    };
    line.push_field(name.as_bytes())?;
    Ok(true)
}
