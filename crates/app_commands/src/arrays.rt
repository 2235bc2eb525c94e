//! Arrays in NumPy's files, read and written.

use app_files::{Ending, bytes_at, name_at};
use report_files::npy::{ArrayShape, NpyFault, WriteFault, npy_bytes, read_npy};
use std::alloc::Global;

/// The file of an array of this shape with these words.
pub fn array_of(alloc: Global, shape: ArrayShape, words: &[u32]) -> Result<Vec<u8>, Ending> {
    match npy_bytes(alloc, shape, words) {
        Ok(bytes) => Ok(bytes),
        Err(WriteFault::Memory) => Err(Ending::Memory),
        Err(fault) => Err(Ending::refused(format!(in alloc; "array Count\n{fault}"))),
    }
}

/// The name of a fault, as docs/formats.md has it.
fn name_of(fault: NpyFault) -> &'static str {
    match fault {
        NpyFault::Magic => "Magic",
        NpyFault::Version => "Version",
        NpyFault::Header => "Header",
        NpyFault::Kind => "Kind",
        NpyFault::Shape => "Shape",
        NpyFault::Length { .. } => "Length",
        NpyFault::Value { .. } => "Value",
        NpyFault::Memory => "Memory",
    }
}

/// The ending where bytes are no array that is read.
fn no_array(alloc: Global, path: &str, fault: NpyFault) -> Ending {
    if fault == NpyFault::Memory {
        return Ending::Memory;
    }
    let (kind, name) = (name_of(fault), name_at(path));
    Ending::refused(format!(in alloc;
        "array {kind}\n{name}: {fault}; expected an array of numbers from 0 to 4294967295 with one axis, as numpy.save writes it"
    ))
}

/// The values of the array at a path.
fn values_at(rt: &HostRuntime, path: &str) -> Result<Vec<u32>, Ending> {
    let bytes = bytes_at(rt, path)?;
    match read_npy(rt.alloc(), &bytes) {
        Ok(values) => Ok(values),
        Err(fault) => Err(no_array(rt.alloc(), path, fault)),
    }
}

/// Refuses an array at a path that has not one element for each of so many nodes.
fn check_count(alloc: Global, path: &str, found: usize, nodes: u32) -> Result<(), Ending> {
    if found == nodes as usize {
        return Ok(());
    }
    let name = name_at(path);
    Err(Ending::refused(format!(in alloc;
        "array Count\n{name}: the array has {found} elements; expected one for each of the {nodes} nodes"
    )))
}

/// The values of the array at a path, one for each of so many nodes.
pub(crate) fn column_at(rt: &HostRuntime, path: &str, nodes: u32) -> Result<Vec<u32>, Ending> {
    let values = values_at(rt, path)?;
    check_count(rt.alloc(), path, values.len(), nodes)?;
    Ok(values)
}
