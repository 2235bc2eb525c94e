//! Networks of matrices.
ghost use Rattle.std.specs.Prelude.{◌≡◌, ◌≢◌, [], IfOk, IfErr, Err};
ghost use Rattle.import_formats.specs.matrix_market.Matrices.{entries_of};
ghost use Rattle.import_network.specs.declared.fault.ImportFault.TheVariants.{Memory};
ghost use Rattle.import_network.specs.Faults.{matrix_fault};
ghost use Rattle.import_network.specs.Makings.{matrix_reading};
ghost use Rattle.import_network.specs.Drafts.{IsImportedMatrix, matrix_made};

use crate::fault::ImportFault;
use crate::finish::finished;
use crate::imported::Imported;
use crate::making::Making;
use import_formats::matrix_market::{Direction, EntryReading, read_matrix};
use std::alloc::Global;

/// How the entries of a matrix are read of which a network is made so.
fn matrix_reading(making: Making, direction: Direction, factor: Option<u32>) -> EntryReading
    ensures { result ≡ matrix_reading making direction factor }
{
    EntryReading {
        most_nodes: making.most_nodes(),
        direction,
        factor,
    }
}

/// The network of a Matrix Market file, as [`read_matrix`] reads it: of a packed network links lead one way where the
/// matrix's edges have a direction. Its links are settled as `making` says. Nodes have no names.
///
/// `Matrix` comes where the text is no matrix, also where memory runs out; `Settle` where its links make no network;
/// `Memory` only where memory runs out.
pub fn network_from_matrix(
    alloc: Global,
    text: &[u8],
    direction: Direction,
    factor: Option<u32>,
    making: Making,
) -> Result<Imported, ImportFault>
    ensures network { IfOk result (IsImportedMatrix making (entries_of (matrix_reading making direction factor) text.now)) }
    ensures names { IfOk result (λ imported. imported.names.items ≡ []) }
    ensures fault { IfErr result (λ fault. fault ≢ Memory → matrix_made making (entries_of (matrix_reading making direction factor) text.now) ≡ Err fault) }
    ensures refused { IfErr (entries_of (matrix_reading making direction factor) text.now) (λ fault. result ≡ Err (matrix_fault fault)) }
{
    let matrix = read_matrix(alloc, text, &matrix_reading(making, direction, factor))?;
    finished(
        alloc,
        matrix.nodes,
        matrix.links.as_slice(),
        making.led(matrix.is_directed),
        Vec::new(alloc),
    )
}
