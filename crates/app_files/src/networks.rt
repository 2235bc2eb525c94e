//! Networks that are read: network files, and packed networks in their place.

use crate::ending::Ending;
use crate::files::{Text, bytes_at, name_at};
use large_net::{LargeFault, LargeNetwork, file_tail, read_sequentially};
use link_net::{NetFault, NetFile, read_network};
use net_initial::listed;
use net_text::{RowsFault, row_text, write_network};
use std::alloc::Global;
use std::rt::Files;

/// Whether bytes are a packed network, which begins so.
pub fn is_packed(bytes: &[u8]) -> bool {
    bytes.starts_with(b"UNISONW1")
}

/// The name of a fault, as docs/formats.md has it.
fn packed_name(fault: LargeFault) -> &'static str {
    match fault {
        LargeFault::Magic => "Magic",
        LargeFault::Header => "Header",
        LargeFault::NodeCount { .. } => "NodeCount",
        LargeFault::Length { .. } => "Length",
        LargeFault::Offsets { .. } => "Offsets",
        LargeFault::TooManyNeighbours { .. } => "TooManyNeighbours",
        LargeFault::Neighbour { .. } => "Neighbour",
        LargeFault::Memory => "Memory",
    }
}

/// The ending where the bytes at a path are no packed network.
fn no_packed(alloc: Global, path: &str, fault: LargeFault) -> Ending {
    if fault == LargeFault::Memory {
        return Ending::Memory;
    }
    let (kind, name) = (packed_name(fault), name_at(path));
    Ending::refused(format!(in alloc;
        "network {kind}\n{name}: {fault}; unison pack makes such a file"
    ))
}

/// Which networks a command takes that refuses the links of a packed network so.
fn links_told(fault: NetFault) -> &'static str {
    match fault {
        NetFault::NodeCount => "of 65536 nodes at most",
        NetFault::SelfLink => "without links of a node with itself",
        NetFault::LinkTwice => "with one link between two nodes",
        NetFault::TooManyLinks => "of 262144 links at most",
        NetFault::TooManyNeighbours => "with 4096 neighbours of a node at most",
        _ => "as files say them",
    }
}

/// The name of the fault by which no network file says the rows of a packed network.
fn links_name(fault: NetFault) -> &'static str {
    match fault {
        NetFault::NodeCount => "NodeCount",
        NetFault::SelfLink => "SelfLink",
        NetFault::LinkTwice => "LinkTwice",
        NetFault::TooManyLinks => "TooManyLinks",
        NetFault::TooManyNeighbours => "TooManyNeighbours",
        _ => "NotToml",
    }
}

/// The ending where no network file says the rows of the packed network at a path.
fn no_file_of(alloc: Global, path: &str, network: &LargeNetwork, fault: RowsFault) -> Ending {
    let (name, nodes) = (name_at(path), network.nodes());
    let (kind, why) = match fault {
        RowsFault::Links(fault) => (links_name(fault), links_told(fault)),
        RowsFault::OneWay => ("OneWay", "whose links lead both ways, with one weight"),
        RowsFault::Memory => return Ending::Memory,
    };
    let more = if nodes == 1 { "" } else { "s" };
    Ending::refused(format!(in alloc;
        "network {kind}\n{name}: a packed network of {nodes} node{more}; this command takes networks {why}; lockstep, watch, count, settle, cuts, csv, image, info and init --packed take any, explain and verify any size"
    ))
}

/// The text of the network file that says the same as a packed network.
fn file_text(alloc: Global, path: &str, network: &LargeNetwork) -> Result<Vec<u8>, Ending> {
    match row_text(alloc, &network.rows()) {
        Ok(text) => Ok(text),
        Err(fault) => Err(no_file_of(alloc, path, network, fault)),
    }
}

/// A packed network, and what it says beside its rows.
#[derive(Drop)]
pub struct PackedNetwork {
    pub network: LargeNetwork,
    /// A network file of one node, whose phase is that of the network, and whose sets are its initial values.
    pub settings: NetFile,
}

/// The settings of a packed network that sets nothing.
const NO_SETTINGS: &[u8] = b"nodes = 1\nlinks = []\n";

/// The ending where what stands after the rows of the packed network at a path is no settings.
fn no_settings(alloc: Global, path: &str) -> Ending {
    let name = name_at(path);
    Ending::refused(format!(in alloc;
        "network Settings\n{name}: after the rows stands no network file of one node, without links, for the phase and the initial values; unison init --packed makes such a file"
    ))
}

/// The settings that a text says which stands after the rows of the packed network at a path.
fn settings_of(alloc: Global, path: &str, text: &[u8]) -> Result<NetFile, Ending> {
    match read_network(alloc, text) {
        Ok(file) if file.network().nodes() == 1 => Ok(file),
        Err(NetFault::Memory) => Err(Ending::Memory),
        _ => Err(no_settings(alloc, path)),
    }
}

/// The settings of the packed network of the bytes at a path.
fn settings_in(alloc: Global, path: &str, bytes: &[u8]) -> Result<NetFile, Ending> {
    match file_tail(bytes) {
        Ok(tail) => settings_of(alloc, path, tail.unwrap_or(NO_SETTINGS)),
        Err(fault) => Err(no_packed(alloc, path, fault)),
    }
}

/// The packed network of the bytes at a path, whose rows are read, or are no network.
pub fn packed_with(
    alloc: Global,
    path: &str,
    bytes: &[u8],
    rows: Result<LargeNetwork, LargeFault>,
) -> Result<PackedNetwork, Ending> {
    match rows {
        Ok(network) => {
            let settings = settings_in(alloc, path, bytes)?;
            Ok(PackedNetwork { network, settings })
        }
        Err(fault) => Err(no_packed(alloc, path, fault)),
    }
}

/// The packed network of the bytes at a path, read in one thread.
pub fn packed_of(alloc: Global, path: &str, bytes: &[u8]) -> Result<PackedNetwork, Ending> {
    packed_with(alloc, path, bytes, read_sequentially(alloc, bytes))
}

/// What a text describes that is a network file.
pub fn file_of(alloc: Global, text: &[u8]) -> Result<NetFile, Ending> {
    match read_network(alloc, text) {
        Ok(file) => Ok(file),
        Err(NetFault::Memory) => Err(Ending::Memory),
        Err(fault) => Err(Ending::Network(fault)),
    }
}

/// The text of the network file with the network of a text and the settings of a packed network.
fn settled_text(alloc: Global, text: &[u8], settings: &NetFile) -> Result<Vec<u8>, Ending> {
    let file = file_of(alloc, text)?;
    let list = listed(alloc, file.network())?;
    Ok(write_network(alloc, &list, settings.phase(), settings.sets())?)
}

/// The text of the network file that says the same as these bytes of a packed network.
fn unpacked(alloc: Global, path: &str, bytes: &[u8]) -> Result<Vec<u8>, Ending> {
    let PackedNetwork { network, settings } = packed_of(alloc, path, bytes)?;
    let text = file_text(alloc, path, &network)?;
    if settings.phase() == 0 && settings.sets().is_empty() {
        return Ok(text);
    }
    settled_text(alloc, &text, &settings)
}

/// The text of the network file at a path; of a packed network there the one that says the same.
pub fn network_at(rt: &(impl Files + Input + AllocGlobal), path: &str) -> Result<Vec<u8>, Ending> {
    let bytes = bytes_at(rt, path)?;
    if is_packed(&bytes) {
        return unpacked(rt.alloc(), path, &bytes);
    }
    Ok(bytes)
}

/// The text of the network at a path, with the name under which people know it, where there is a path.
pub fn network_where(
    rt: &(impl Files + Input + AllocGlobal),
    path: &Option<String>,
) -> Result<Option<Text>, Ending> {
    let Some(path) = path else {
        return Ok(None);
    };
    let bytes = network_at(rt, path.as_str())?;
    let name = String::from_str(rt.alloc(), name_at(path.as_str()))?;
    Ok(Some(Text { name, bytes }))
}

/// What a network file describes, or a packed network in its place.
pub fn file_at(rt: &(impl Files + Input + AllocGlobal), path: &str) -> Result<NetFile, Ending> {
    let text = network_at(rt, path)?;
    file_of(rt.alloc(), &text)
}
