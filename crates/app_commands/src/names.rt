//! Files of the names of nodes.

use app_files::{Ending, bytes_at, name_at};
use net_names::{NamesFileFault, NodeNames, read_names};
use std::alloc::Global;

/// The ending where a text has no names.
fn no_names(alloc: Global, name: &str, fault: NamesFileFault) -> Ending {
    if fault == NamesFileFault::Memory {
        return Ending::Memory;
    }
    Ending::refused(format!(in alloc; "names\n{name}: {fault}"))
}

/// The names that this text, which has this name, has.
fn names_of(alloc: Global, name: &str, text: &[u8]) -> Result<NodeNames, Ending> {
    match read_names(alloc, text) {
        Ok(names) => Ok(names),
        Err(fault) => Err(no_names(alloc, name, fault)),
    }
}

/// The names that the file at a path has.
pub fn names_from(rt: &HostRuntime, path: &str) -> Result<NodeNames, Ending> {
    let bytes = bytes_at(rt, path)?;
    names_of(rt.alloc(), name_at(path), &bytes)
}

/// The names by which nodes are called, where they are.
pub fn names_at(rt: &HostRuntime, path: &Option<String>) -> Result<Option<NodeNames>, Ending> {
    let Some(path) = path else {
        return Ok(None);
    };
    let names = names_from(rt, path.as_str())?;
    Ok(Some(names))
}
