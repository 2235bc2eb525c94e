//! Network files that are written.
ghost use mir.Val.{bool_byte};
ghost use Rattle.std.specs.Prelude.{◌≡◌, ◌+◌, ◌-◌, ◌*◌, ◌++◌, ◌==◌, [], if◌then◌else◌, not, length, flat_map, sum_by, false, IfOk, OnOk, Ok, Some, None};
ghost use Rattle.std.specs.Int.{to_le_bytes, w32, w64};
ghost use Rattle.std.specs.List.{list_any};
ghost use Rattle.link_net.specs.Layout.{rows_of};
ghost use Rattle.large_net.specs.Large.{AreLaidOut};
ghost use Rattle.large_net.specs.File.{is_weighted, large_of, length_for, tail_of};

use crate::header::{MAGIC, file_length};
use crate::network::LargeNetwork;
use std::alloc::{AllocError, Global};

/// Writes numbers of eight bytes each at the end.
fn push_longs(bytes: &mut Vec<u8>, numbers: &[usize]) -> Result<(), AllocError>
    ensures pushed { OnOk result (bytes.new.items ≡ bytes.old.items ++ flat_map (to_le_bytes w64) numbers.now) }
{
    for number in numbers {
        bytes.extend_from_slice(&(*number as u64).to_le_bytes())?;
    }
    Ok(())
}

/// Writes numbers of four bytes each at the end.
fn push_words(bytes: &mut Vec<u8>, numbers: &[u32]) -> Result<(), AllocError>
    ensures pushed { OnOk result (bytes.new.items ≡ bytes.old.items ++ flat_map (to_le_bytes w32) numbers.now) }
{
    for number in numbers {
        bytes.extend_from_slice(&number.to_le_bytes())?;
    }
    Ok(())
}

/// Whether some weight is not 1.
fn has_weight(weights: &[u32]) -> bool
    ensures { result ≡ list_any (λ weight. not (weight == 1)) weights.now }
{
    weights.iter().any(|weight| *weight != 1)
}

/// The weights that are written: none where each is 1.
fn written(weights: &[u32]) -> &[u32]
    ensures { result.now ≡ (if list_any (λ weight. not (weight == 1)) weights.now then weights.now else []) }
{
    if has_weight(weights) { weights } else { &[] }
}

/// The flags of a file: 1 where weights follow, and 2 more where something stands after the rows.
fn flags_of(weighted: bool, tailed: bool) -> usize
    ensures { result ≡ bool_byte weighted + 2 * bool_byte tailed }
{
    usize::from(weighted) + 2 * usize::from(tailed)
}

/// The file of the rows that stand in these lists, and of what is to stand after them, where something is said to.
fn spell(
    alloc: Global,
    offsets: &[usize],
    neighbours: &[u32],
    weights: &[u32],
    tailed: bool,
    tail: &[u8],
) -> Result<Vec<u8>, AllocError>
    requires laid_out { AreLaidOut offsets.now neighbours.now weights.now }
    requires bare { tailed ≡ false → tail.now ≡ [] }
    ensures reads_back { IfOk result (λ v. large_of v.items ≡ Ok (rows_of offsets.now neighbours.now weights.now)) }
    ensures tail { IfOk result (λ v. tail_of v.items ≡ Ok (if tailed then Some tail.now else None)) }
    ensures short { IfOk result (λ v. length v.items
        ≡ length_for (length offsets.now - 1) (length neighbours.now) (list_any (λ weight. not (weight == 1)) weights.now) + length tail.now) }
{
    let nodes = offsets.len() - 1;
    let ends = neighbours.len();
    let weighted = has_weight(weights);
    let size = file_length(nodes as u64, ends as u64, weighted);
    let mut bytes = Vec::with_capacity(alloc, size as usize)?;
    bytes.extend_from_slice(&MAGIC)?;
    push_longs(&mut bytes, &[nodes, ends, flags_of(weighted, tailed)])?;
    push_longs(&mut bytes, offsets)?;
    push_words(&mut bytes, neighbours)?;
    push_words(&mut bytes, written(weights))?;
    bytes.extend_from_slice(tail)?;
    Ok(bytes)
}

/// The file of a network, without weights where each is 1.
pub fn large_bytes(alloc: Global, network: &LargeNetwork) -> Result<Vec<u8>, AllocError>
    ensures reads_back { IfOk result (λ v. large_of v.items ≡ Ok network.now) }
    ensures short { IfOk result (λ v. length v.items ≡ length_for (length network.now) (sum_by length network.now) (is_weighted network.now)) }
{
    let lists = network.lists();
    spell(
        alloc,
        lists.offsets,
        lists.neighbours,
        lists.weights,
        false,
        &[],
    )
}

/// The file of a network, without weights where each is 1, with these bytes after the rows.
pub fn tailed_bytes(
    alloc: Global,
    network: &LargeNetwork,
    tail: &[u8],
) -> Result<Vec<u8>, AllocError>
    ensures reads_back { IfOk result (λ v. large_of v.items ≡ Ok network.now) }
    ensures tail { IfOk result (λ v. tail_of v.items ≡ Ok (Some tail.now)) }
    ensures short { IfOk result (λ v. length v.items ≡ length_for (length network.now) (sum_by length network.now) (is_weighted network.now) + length tail.now) }
{
    let lists = network.lists();
    spell(
        alloc,
        lists.offsets,
        lists.neighbours,
        lists.weights,
        true,
        tail,
    )
}
