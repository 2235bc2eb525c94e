//! Why a network file is refused, in enough detail to find the place and mend it.
ghost use Rattle.std.specs.Prelude.{◌≡◌, ◌≢◌, true, option_map, IfOk, IfErr, IfSome};
ghost use Rattle.std.specs.Str.{is_utf8};
ghost use Rattle.toml.specs.Data.{no_members};
ghost use Rattle.toml.specs.Errors.{IsBlank};
ghost use Rattle.toml.specs.View.{table_view};
ghost use Rattle.link_net.specs.Causes.{fault_of, refusal_of, fault_if, IsShapeCause, IsDocumentCause, IsCause};
ghost use Rattle.link_net.specs.Document.{has_unknown_key};
ghost use Rattle.link_net.specs.Reading.{description_in, reading_of};

use crate::document::{is_known_key, read_draft};
use crate::number_causes::number_cause;
use crate::shape_causes::shape_cause;
use crate::{NetCause, NetFault};
use std::alloc::{AllocError, Global};
use toml::Table;

/// Why a network file is refused, with the place: `None` exactly where `read_network` gives a network, running out of
/// memory aside. Of several causes the first in the order of [`NetFault`], and of links, entries and nodes the first at
/// fault. A text of nothing but white space and comments takes no memory. Any other bytes take some: for the table that
/// they are, or for a message.
pub fn diagnose(alloc: Global, bytes: &[u8]) -> Result<Option<NetCause>, AllocError>
    ensures agrees { IfOk result (λ cause. option_map fault_of cause ≡ refusal_of (reading_of bytes.now)) }
    ensures named { IfOk result (λ cause. IfSome cause (IsCause bytes.now)) }
    ensures at_once { IfErr result (λ _. is_utf8 bytes.now ≡ true → IsBlank bytes.now → ⊥) }
{
    match std::str::from_utf8(bytes) {
        Ok(text) => text_cause(alloc, text),
        Err(error) => {
            let message = String::from_str(alloc, "the bytes are no UTF-8")?;
            let at = error.valid_up_to();
            Ok(Some(NetCause::NotToml { at, message }))
        }
    }
}

/// Why a text is refused.
fn text_cause(alloc: Global, text: &str) -> Result<Option<NetCause>, AllocError>
    ensures agrees { IfOk result (λ cause. option_map fault_of cause ≡ refusal_of (reading_of text.now)) }
    ensures named { IfOk result (λ cause. IfSome cause (IsCause text.now)) }
    ensures at_once { IfErr result (λ _. IsBlank text.now → ⊥) }
{
    match toml::table_from_str(alloc, text) {
        Ok(table) => {
            let cause = table_cause(alloc, &table)?;
            Ok(cause)
        }
        Err(error) => {
            let Some(span) = error.span() else {
                return Err(AllocError);
            };
            let message = String::from_str(alloc, error.message())?;
            let at = span.start;
            Ok(Some(NetCause::NotToml { at, message }))
        }
    }
}

/// Why a table is refused.
fn table_cause(alloc: Global, table: &Table) -> Result<Option<NetCause>, AllocError>
    ensures agrees { IfOk result (λ cause. option_map fault_of cause ≡ refusal_of (description_in (table_view table.now))) }
    ensures named { IfOk result (λ cause. IfSome cause (IsDocumentCause (table_view table.now))) }
    ensures at_once { IfErr result (λ _. table_view table.now ≢ no_members) }
{
    if let Some(cause) = key_cause(alloc, table)? {
        return Ok(Some(cause));
    }
    if let Some(cause) = shape_cause(alloc, table)? {
        return Ok(Some(cause));
    }
    let Ok(draft) = read_draft(alloc, table) else {
        return Err(AllocError);
    };
    let cause = number_cause(alloc, &draft)?;
    Ok(cause)
}

/// The first key that is none of the four.
fn key_cause(alloc: Global, table: &Table) -> Result<Option<NetCause>, AllocError>
    ensures agrees { IfOk result (λ cause. option_map fault_of cause ≡ fault_if (has_unknown_key (table_view table.now)) NetFault.UnknownKey) }
    ensures named { IfOk result (λ cause. IfSome cause (IsShapeCause (table_view table.now))) }
    ensures at_once { IfErr result (λ _. has_unknown_key (table_view table.now) ≡ true) }
{
    for (key, _value) in table.iter() {
        if !is_known_key(key.as_str()) {
            let key = String::from_str(alloc, key.as_str())?;
            return Ok(Some(NetCause::UnknownKey { key }));
        }
    }
    Ok(None)
}
