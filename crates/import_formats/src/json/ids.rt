//! The ids of nodes.
ghost use Rattle.std.specs.Prelude.{◌≡◌, string_bytes, IfOk, option_map};
ghost use Rattle.std.specs.Fmt.{decimal};
ghost use Rattle.serde_json.specs.View.{view};
ghost use Rattle.import_formats.specs.json.Graphs.{IsAnswer, id_fault, id_text, id_in};

use crate::json::fault::{IdFault, JsonFault, LinkEnd, LinkFault, LinkList, NodeFault};
use serde_json::Value;
use std::alloc::{AllocError, Global};

/// Where an id stands: in the node at a place of `nodes`, or at an end of the link at a place of a list.
#[derive(Clone, Copy)]
pub(crate) enum Holder {
    Node {
        place: u64,
    },
    End {
        list: LinkList,
        place: u64,
        end: LinkEnd,
    },
}

/// What is wrong with an id that stands there.
fn id_fault(holder: Holder, fault: IdFault) -> JsonFault
    ensures { result ≡ id_fault holder fault }
{
    match holder {
        Holder::Node { place } => JsonFault::BadNode {
            place,
            fault: NodeFault::Id(fault),
        },
        Holder::End { list, place, end } => JsonFault::BadLink {
            list,
            place,
            fault: LinkFault::End { end, fault },
        },
    }
}

/// A number in decimal digits.
fn digits(alloc: Global, number: u64) -> Result<String, AllocError>
    ensures { IfOk result (λ text. string_bytes text ≡ decimal number) }
{
    number.to_string(alloc)
}

/// The text of an id: a string itself, a whole number in decimal digits; none where it is neither.
fn id_text(alloc: Global, id: &Value) -> Result<Option<String>, AllocError>
    ensures { IfOk result (λ text. option_map string_bytes text ≡ id_text (view id.now)) }
{
    if let Some(text) = id.as_str() {
        let text = String::from_str(alloc, text)?;
        return Ok(Some(text));
    }
    let Some(number) = id.as_u64() else {
        return Ok(None);
    };
    let text = digits(alloc, number)?;
    Ok(Some(text))
}

/// The text of the id in the member of this name, or what is wrong with it.
pub(crate) fn id_in(
    alloc: Global,
    holder: Holder,
    key: &str,
    object: &Value,
) -> Result<String, JsonFault>
    ensures id { IsAnswer string_bytes (id_in holder key.now (view object.now)) result }
{
    let Some(id) = object.get(key) else {
        return Err(id_fault(holder, IdFault::NoId));
    };
    let Some(text) = id_text(alloc, id)? else {
        return Err(id_fault(holder, IdFault::BadId));
    };
    Ok(text)
}
