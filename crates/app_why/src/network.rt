//! Why a network file is refused.

use crate::entries::{entry_seen, key_place, value_place};
use crate::near::nearest;
use crate::told::{Part, Told};
use link_net::NetCause;
use std::alloc::{AllocError, Global};
use toml::{Table, Value};

/// An entry of a list in the file.
#[derive(Drop)]
struct Entry {
    /// Where it begins, where that is seen.
    at: Option<usize>,
    /// How TOML writes it.
    text: String,
}

/// The table that the bytes are, which were read before: only memory can be wanting.
fn table_of(alloc: Global, bytes: &[u8]) -> Result<Table, AllocError> {
    match toml::table_from_slice(alloc, bytes) {
        Ok(table) => Ok(table),
        Err(_) => Err(AllocError),
    }
}

/// The value of a key of a table of the document; the table at the top has the empty name.
fn value_of<'d>(document: &'d Table, table: &str, key: &str) -> Option<&'d Value> {
    if table.is_empty() {
        return document.get(key);
    }
    document.get(table).and_then(Value::as_table)?.get(key)
}

/// The entry of this number of a list, as TOML writes it.
fn entry_text(alloc: Global, list: Option<&Value>, entry: usize) -> Result<String, AllocError> {
    let Some(array) = list.and_then(Value::as_array) else {
        return Ok(String::new(alloc));
    };
    match array.get(entry) {
        Some(value) => value.to_string(alloc),
        None => Ok(String::new(alloc)),
    }
}

/// The entry of this number of the list at a key of a table. The document is read only where the entry is not seen in it.
fn entry_of(
    alloc: Global,
    bytes: &[u8],
    table: &str,
    key: &str,
    entry: usize,
) -> Result<Entry, AllocError> {
    if let Some((at, text)) = entry_seen(alloc, bytes, table, key, entry)? {
        return Ok(Entry { at: Some(at), text });
    }
    let document = table_of(alloc, bytes)?;
    let text = entry_text(alloc, value_of(&document, table, key), entry)?;
    Ok(Entry { at: None, text })
}

/// The link that the cause names.
fn link_of(cause: &NetCause) -> Option<usize> {
    match *cause {
        NetCause::LinkShape { link }
        | NetCause::BadLink { link }
        | NetCause::SelfLink { link }
        | NetCause::LinkTwice { link, .. }
        | NetCause::BadWeight { link } => Some(link),
        _ => None,
    }
}

/// The entry at fault, where the cause names one.
fn entry_at_fault(
    alloc: Global,
    bytes: &[u8],
    cause: &NetCause,
) -> Result<Option<Entry>, AllocError> {
    if let Some(link) = link_of(cause) {
        return Ok(Some(entry_of(alloc, bytes, "", "links", link)?));
    }
    match cause {
        NetCause::PairShape { key, entry } => Ok(Some(entry_of(
            alloc,
            bytes,
            "set",
            key.as_str(),
            *entry,
        )?)),
        _ => Ok(None),
    }
}

/// What is wrong, where it is told in words of its own.
fn plain_text(cause: &NetCause) -> Option<&str> {
    match cause {
        NetCause::NotToml { message, .. } => Some(message.as_str()),
        NetCause::NodesMissing => Some("the key `nodes` is missing"),
        NetCause::NodesShape => Some("`nodes` is no whole number"),
        NetCause::LinksMissing => Some("the key `links` is missing at the top"),
        NetCause::LinksShape => Some("`links` is no array"),
        NetCause::PhaseShape => Some("`phase` is no whole number"),
        NetCause::SetShape => Some("`set` is no table"),
        _ => None,
    }
}

/// What is wrong with a link by itself.
fn link_fault(cause: &NetCause) -> &'static str {
    match cause {
        NetCause::LinkShape { .. } => "is no array of two or three whole numbers",
        NetCause::BadLink { .. } => "has an end that is no node",
        NetCause::SelfLink { .. } => "joins a node with itself",
        NetCause::BadWeight { .. } => "has no weight from 0 to 4294967295",
        _ => "",
    }
}

/// What is wrong with a link.
fn link_text(
    alloc: Global,
    bytes: &[u8],
    cause: &NetCause,
    link: usize,
    entry_text: &str,
) -> Result<String, AllocError> {
    if let NetCause::LinkTwice { earlier, .. } = cause {
        let other = entry_of(alloc, bytes, "", "links", *earlier)?.text;
        return format!(in alloc;
            "link {link}, {entry_text}, joins the same nodes as link {earlier}, {other}"
        );
    }
    let fault = link_fault(cause);
    format!(in alloc; "link {link}, {entry_text}, {fault}")
}

/// What is wrong with keys and with numbers.
fn number_text(alloc: Global, cause: &NetCause, entry_text: &str) -> Result<String, AllocError> {
    match cause {
        NetCause::UnknownKey { key } => format!(in alloc; "there is no key `{key}`"),
        NetCause::SetValueShape { key } => format!(in alloc; "`{key}` in `set` is no array"),
        NetCause::PairShape { key, entry } => format!(in alloc;
            "entry {entry} of `{key}` in `set`, {entry_text}, is no array of two whole numbers"
        ),
        NetCause::NodeCount { nodes } => format!(in alloc; "there are {nodes} nodes"),
        NetCause::TooManyLinks { links } => format!(in alloc; "there are {links} links"),
        NetCause::TooManyNeighbours { node, neighbours } => format!(in alloc;
            "node {node} has {neighbours} neighbours"
        ),
        NetCause::BadPhase { phase } => format!(in alloc; "the phase is {phase}"),
        _ => Ok(String::new(alloc)),
    }
}

/// Whether the bytes are a packed network, which begins so.
fn is_packed(bytes: &[u8], cause: &NetCause) -> bool {
    matches!(cause, NetCause::NotToml { .. }) && bytes.starts_with(b"UNISONW1")
}

/// What is wrong.
fn what_text(
    alloc: Global,
    bytes: &[u8],
    cause: &NetCause,
    entry_text: &str,
) -> Result<String, AllocError> {
    if is_packed(bytes, cause) {
        return String::from_str(alloc, "this is a packed network, no network file");
    }
    if let Some(text) = plain_text(cause) {
        return String::from_str(alloc, text);
    }
    match link_of(cause) {
        Some(link) => link_text(alloc, bytes, cause, link, entry_text),
        None => number_text(alloc, cause, entry_text),
    }
}

/// What to do about a key that is none of the four.
fn key_hint(alloc: Global, key: &str) -> Result<String, AllocError> {
    match nearest(alloc, key, &["nodes", "links", "phase", "set"])? {
        Some(near) => format!(in alloc; "did you mean `{near}`?"),
        None => String::from_str(
            alloc,
            "the keys at the top are `nodes`, `links`, `phase` and `set`; initial values stand in `set`",
        ),
    }
}

/// What to do about `links` that is not there.
fn links_hint(alloc: Global, bytes: &[u8]) -> Result<String, AllocError> {
    let hint = match value_of(&table_of(alloc, bytes)?, "set", "links") {
        Some(_) => "`links` stands behind [set] and so belongs to it: put it above [set]",
        None => "a network without links has: links = []",
    };
    String::from_str(alloc, hint)
}

/// What to do.
fn hint(cause: &NetCause) -> &'static str {
    match cause {
        NetCause::NodesMissing | NetCause::NodesShape => "the number of nodes, as in: nodes = 3",
        NetCause::LinksShape | NetCause::LinkShape { .. } =>
            "links are written [[0, 1], [1, 2]], or with weights [[0, 1, 5], [1, 2, 7]]; whole numbers without quotes",
        NetCause::PhaseShape | NetCause::BadPhase { .. } =>
            "the phase is 0, 1 or 2; it may be left out",
        NetCause::SetShape => "initial values stand below [set], as in: dist = [[0, 0], [7, 0]]",
        NetCause::SetValueShape { .. } | NetCause::PairShape { .. } =>
            "initial values are pairs [node, value], as in: dist = [[0, 0], [7, 0]]",
        NetCause::NodeCount { .. } => "a network has from 1 to 65536 nodes",
        NetCause::BadLink { .. } => "nodes are numbered from 0 to one less than `nodes`",
        NetCause::SelfLink { .. } => "leave it out: a node always reads its own state",
        NetCause::LinkTwice { .. } => "a link goes both ways: leave one of the two out",
        NetCause::TooManyLinks { .. } => "a network has 262144 links at most",
        NetCause::TooManyNeighbours { .. } => "a node has 4096 neighbours at most",
        NetCause::BadWeight { .. } => "a weight is a whole number from 0 to 4294967295",
        _ => "",
    }
}

/// What to do, in a text of its own.
fn hint_text(alloc: Global, bytes: &[u8], cause: &NetCause) -> Result<String, AllocError> {
    match cause {
        NetCause::NotToml { .. } if is_packed(bytes, cause) => String::from_str(
            alloc,
            "unison large reads it: unison large lockstep PROGRAM NETWORK --rounds T",
        ),
        NetCause::UnknownKey { key } => key_hint(alloc, key.as_str()),
        NetCause::LinksMissing => links_hint(alloc, bytes),
        _ => String::from_str(alloc, hint(cause)),
    }
}

/// Where the fault is seen in the text, where it is no entry of a list.
fn key_spot(bytes: &[u8], cause: &NetCause) -> Option<usize> {
    match cause {
        NetCause::NotToml { at, .. } => Some(*at),
        NetCause::UnknownKey { key } => key_place(bytes, "", key.as_str()),
        NetCause::NodesShape | NetCause::NodeCount { .. } => value_place(bytes, "", "nodes"),
        NetCause::LinksShape => value_place(bytes, "", "links"),
        NetCause::LinksMissing => key_place(bytes, "set", "links"),
        NetCause::PhaseShape | NetCause::BadPhase { .. } => value_place(bytes, "", "phase"),
        NetCause::SetShape => value_place(bytes, "", "set"),
        NetCause::SetValueShape { key } => value_place(bytes, "set", key.as_str()),
        _ => None,
    }
}

/// What is told of a network file that is refused. Links and entries are counted from 0, in the file's order.
pub(crate) fn tell_network(
    alloc: Global,
    bytes: &[u8],
    cause: &NetCause,
) -> Result<Told, AllocError> {
    let hint = hint_text(alloc, bytes, cause)?;
    let (at, what) = match entry_at_fault(alloc, bytes, cause)? {
        Some(entry) => (
            entry.at,
            what_text(alloc, bytes, cause, entry.text.as_str())?,
        ),
        None => (key_spot(bytes, cause), what_text(alloc, bytes, cause, "")?),
    };
    Ok(Told {
        part: Some(Part::Network),
        at,
        what,
        hint,
    })
}
