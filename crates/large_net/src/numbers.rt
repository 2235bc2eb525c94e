//! Numbers of four and of eight bytes, the lowest byte first, that stand after one another.
ghost use Rattle.std.specs.Prelude.{◌≡◌, ◌+◌, ◌*◌, ◌<◌, ◌≤◌, length, map, drop, slice_index, IfOk};
ghost use Rattle.std.specs.Int.{from_le_bytes, w32, w64};
ghost use Rattle.std.specs.Simd.{first_chunks};
ghost use Rattle.large_net.specs.File.{long_at};

use std::alloc::{AllocError, Global};

/// So many pieces of eight bytes each, from a place on.
pub(crate) fn eights(bytes: &[u8], place: usize, count: usize) -> &[[u8; 8]]
    requires within { place + 8 * count ≤ length bytes.now }
    ensures pieces { result.now ≡ first_chunks 8 count (drop place bytes.now) }
    ensures count { length result.now ≡ count }
{
    let (pieces, _rest) = bytes[place..place + 8 * count].as_chunks();
    pieces
}

/// So many pieces of four bytes each, from a place on.
pub(crate) fn fours(bytes: &[u8], place: usize, count: usize) -> &[[u8; 4]]
    requires within { place + 4 * count ≤ length bytes.now }
    ensures pieces { result.now ≡ first_chunks 4 count (drop place bytes.now) }
    ensures count { length result.now ≡ count }
{
    let (pieces, _rest) = bytes[place..place + 4 * count].as_chunks();
    pieces
}

/// The number in the eight bytes at a place.
pub(crate) fn long_at(bytes: &[u8], place: usize) -> u64
    requires within { place + 8 ≤ length bytes.now }
    ensures { result ≡ long_at bytes.now place }
{
    u64::from_le_bytes(eights(bytes, place, 1)[0])
}

/// The number in one of the pieces.
pub(crate) fn long_in(pieces: &[[u8; 8]], place: usize) -> u64
    requires within { place < length pieces.now }
    ensures { result ≡ slice_index (map (from_le_bytes w64) pieces.now) place }
{
    u64::from_le_bytes(pieces[place])
}

/// The numbers in the pieces, of eight bytes each.
pub(crate) fn read_longs(alloc: Global, pieces: &[[u8; 8]]) -> Result<Vec<usize>, AllocError>
    ensures { IfOk result (λ v. v.items ≡ map (from_le_bytes w64) pieces.now) }
{
    let mut numbers = Vec::with_capacity(alloc, pieces.len())?;
    for piece in pieces {
        numbers.push(u64::from_le_bytes(*piece) as usize)?;
    }
    Ok(numbers)
}

/// The numbers in the pieces, of four bytes each.
pub(crate) fn read_words(alloc: Global, pieces: &[[u8; 4]]) -> Result<Vec<u32>, AllocError>
    ensures { IfOk result (λ v. v.items ≡ map (from_le_bytes w32) pieces.now) }
{
    let mut numbers = Vec::with_capacity(alloc, pieces.len())?;
    for piece in pieces {
        numbers.push(u32::from_le_bytes(*piece))?;
    }
    Ok(numbers)
}
