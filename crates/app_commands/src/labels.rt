//! What stands for nodes in CSV and JSON: their names.

use crate::names::names_at;
use app_files::Ending;
use csv::{ByteRecord, Writer};
use net_names::NodeNames;
use run_watch::Format;
use serde_json::Value;
use std::alloc::{AllocError, Global};

/// A name as a JSON string.
fn json_label(alloc: Global, name: &str) -> Result<String, AllocError> {
    let value = Value::String(String::from_str(alloc, name)?);
    value.to_string(alloc)
}

/// A record of one cell.
fn record_of(alloc: Global, name: &str) -> Result<ByteRecord, AllocError> {
    let mut record = ByteRecord::new(alloc);
    record.push_field(name.as_bytes())?;
    Ok(record)
}

/// What writes a record, which it has written.
fn writer_of(alloc: Global, record: &ByteRecord) -> Result<Writer<Vec<u8>>, AllocError> {
    let mut writer = Writer::from_writer(Vec::new(alloc));
    match writer.write_byte_record(record) {
        Ok(()) => Ok(writer),
        Err(_) => Err(AllocError),
    }
}

/// The bytes of a record, with the end of its line.
fn bytes_of(alloc: Global, record: &ByteRecord) -> Result<Vec<u8>, AllocError> {
    let writer = writer_of(alloc, record)?;
    match writer.into_inner() {
        Ok(bytes) => Ok(bytes),
        Err(_) => Err(AllocError),
    }
}

/// The bytes of a record of one cell, with the end of its line.
fn cell_of(alloc: Global, name: &str) -> Result<Vec<u8>, AllocError> {
    let record = record_of(alloc, name)?;
    bytes_of(alloc, &record)
}

/// The text of a record, without the end of its line.
fn text_in<'a>(record: &'a [u8], name: &'a str) -> &'a str {
    let text = str::from_utf8(record).unwrap_or(name);
    text.strip_suffix("\n").unwrap_or(text)
}

/// A name as a cell of CSV.
fn csv_label(alloc: Global, name: &str) -> Result<String, AllocError> {
    let record = cell_of(alloc, name)?;
    String::from_str(alloc, text_in(&record, name))
}

/// What stands for a node of this name.
fn label_of(alloc: Global, format: Format, name: &str) -> Result<String, AllocError> {
    match format {
        Format::Json => json_label(alloc, name),
        Format::Csv => csv_label(alloc, name),
        Format::Report => String::from_str(alloc, name),
    }
}

/// Puts what stands for a node of this name.
fn put_label(
    labels: &mut Vec<String>,
    alloc: Global,
    format: Format,
    name: &str,
) -> Result<(), AllocError> {
    let label = label_of(alloc, format, name)?;
    labels.push(label)?;
    Ok(())
}

/// What stands for the nodes of these names, by rising number.
fn labels_in(alloc: Global, format: Format, names: &NodeNames) -> Result<Vec<String>, Ending> {
    let mut labels = Vec::new(alloc);
    for node in 0..names.count() {
        put_label(&mut labels, alloc, format, names.name(node).unwrap_or(""))?;
    }
    Ok(labels)
}

/// Refuses another number of names than there are nodes.
pub(crate) fn check_count(alloc: Global, names: &NodeNames, nodes: u32) -> Result<(), Ending> {
    let count = names.count();
    if count == nodes {
        return Ok(());
    }
    Err(Ending::usage(format!(in alloc;
        "--names: the file has {count} names, and the network {nodes} nodes"
    )))
}

/// Refuses names that are not as many as the network has nodes.
fn check_names(alloc: Global, names: &Option<NodeNames>, nodes: u32) -> Result<(), Ending> {
    match names {
        Some(names) => check_count(alloc, names, nodes),
        None => Ok(()),
    }
}

/// The names by which nodes are called, as many as the network has nodes.
pub fn names_for(
    rt: &HostRuntime,
    path: &Option<String>,
    nodes: u32,
) -> Result<Option<NodeNames>, Ending> {
    let names = names_at(rt, path)?;
    check_names(rt.alloc(), &names, nodes)?;
    Ok(names)
}

/// What stands for so many nodes, which have names or, where there are none, their numbers.
fn labels_of(
    alloc: Global,
    format: Format,
    names: &Option<NodeNames>,
    nodes: u32,
) -> Result<Vec<String>, Ending> {
    let Some(names) = names else {
        return Ok(Vec::new(alloc));
    };
    check_count(alloc, names, nodes)?;
    labels_in(alloc, format, names)
}

/// What stands for so many nodes, whose names stand in the file at a path where there is one.
pub fn labels_at(
    rt: &HostRuntime,
    format: Format,
    path: &Option<String>,
    nodes: u32,
) -> Result<Vec<String>, Ending> {
    let names = names_at(rt, path)?;
    labels_of(rt.alloc(), format, &names, nodes)
}
