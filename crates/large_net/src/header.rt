//! The first 32 bytes of a network file.
ghost use Rattle.std.specs.Prelude.{◌≡◌, ◌≤◌, ◌+◌, ◌-◌, ◌^◌, length, min, IfOk};
ghost use Rattle.link_net.specs.Limits.{most_rows};
ghost use Rattle.large_net.specs.File.{asked_length, has_length, header_of, length_for, neighbours_start};

use crate::fault::LargeFault;
use crate::numbers::long_at;

/// What a network file begins with.
pub(crate) const MAGIC: [u8; 8] = *b"UNISONW1";

/// How many bytes the header has.
pub(crate) const HEADER: usize = 32;

/// The most nodes that a network may have.
const MOST_NODES: u64 = 4_294_967_295;

/// What the first 32 bytes of a network file say.
#[derive(Clone, Copy)]
pub(crate) struct FileHeader {
    pub(crate) nodes: u64,
    pub(crate) ends: u64,
    pub(crate) weighted: bool,
    pub(crate) tailed: bool,
}

impl FileHeader {
    /// How many offsets there are, one more than nodes.
    pub(crate) fn offsets(self) -> usize
        requires few { self.nodes ≤ most_rows }
        ensures { result ≡ self.nodes + 1 }
    {
        self.nodes as usize + 1
    }

    /// The place of the first neighbour, after the offsets.
    pub(crate) fn neighbours_start(self) -> usize
        requires few { self.nodes ≤ most_rows }
        ensures { result ≡ neighbours_start self.nodes }
    {
        HEADER + 8 * self.offsets()
    }
}

/// How many bytes a file has, or 2^64 - 1 where that is less.
pub(crate) fn file_length(nodes: u64, ends: u64, weighted: bool) -> u64
    requires few { nodes ≤ most_rows }
    ensures { result ≡ min (length_for nodes ends weighted) (2 ^ 64 - 1) }
{
    let each = if weighted { 8 } else { 4 };
    (32 + 8 * (nodes + 1)).saturating_add(ends.saturating_mul(each))
}

/// Whether a file has as many bytes as are expected, or more where something follows.
fn has_length(tailed: bool, expected: u64, found: u64) -> bool
    ensures { result ≡ has_length tailed expected found }
{
    found == expected || (tailed && found > expected)
}

/// The header of a network file whose length is as its header asks.
pub(crate) fn read_header(bytes: &[u8]) -> Result<FileHeader, LargeFault>
    ensures exact { result ≡ header_of bytes.now }
    ensures some { IfOk result (λ header. 1 ≤ header.nodes) }
    ensures few { IfOk result (λ header. header.nodes ≤ most_rows) }
    ensures whole { IfOk result (λ header. asked_length header ≤ length bytes.now) }
{
    if !bytes.starts_with(&MAGIC) {
        return Err(LargeFault::Magic);
    }
    if bytes.len() < HEADER || long_at(bytes, 24) > 3 {
        return Err(LargeFault::Header);
    }
    let nodes = long_at(bytes, 8);
    if nodes == 0 || nodes > MOST_NODES {
        return Err(LargeFault::NodeCount { nodes });
    }
    let ends = long_at(bytes, 16);
    let flags = long_at(bytes, 24);
    let header = FileHeader {
        nodes,
        ends,
        weighted: flags % 2 == 1,
        tailed: flags > 1,
    };
    let found = bytes.len() as u64;
    let expected = file_length(nodes, ends, header.weighted);
    if !has_length(header.tailed, expected, found) {
        return Err(LargeFault::Length { expected, found });
    }
    Ok(header)
}
