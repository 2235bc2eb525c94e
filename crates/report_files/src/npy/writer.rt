//! Arrays that are written.
ghost use Rattle.std.specs.Prelude.{◌≡◌, ◌≢◌, ◌++◌, ◌<◌, ◌^◌, ◌≤◌, ◌-◌, length, flat_map, replicate, IfOk, IfErr, OnOk, Ok, Err, string_bytes};
ghost use Rattle.std.specs.Int.{to_le_bytes, w32};
ghost use Rattle.report_files.specs.npy.Arrays.{IsReading};
ghost use Rattle.report_files.specs.npy.Written.{axes_text, element_count, npy_file};
ghost use Rattle.report_files.specs.npy.Parts.{bare_header, front_text, IsRow, IsSmall};
ghost use Rattle.report_files.specs.declared.npy.write_fault.WriteFault.TheVariants.{Count, Memory};

use crate::npy::front::MAGIC;
use crate::npy::shape::ArrayShape;
use crate::npy::write_fault::WriteFault;
use std::alloc::{AllocError, Global};

/// How many bytes the front of a file has, its header counted in: there is room for every shape.
const FRONT: usize = 128;

/// How many bytes the header has, with the end of its line.
const HEADER: u16 = 118;

/// What is put between a header and the end of its line.
const BLANKS: [u8; FRONT] = [b' '; FRONT];

/// Writes words at the end, the lowest byte first.
fn push_words(bytes: &mut Vec<u8>, words: &[u32]) -> Result<(), AllocError>
    ensures pushed { OnOk result (bytes.new.items ≡ bytes.old.items ++ flat_map (to_le_bytes w32) words.now) }
{
    for word in words {
        bytes.extend_from_slice(&word.to_le_bytes())?;
    }
    Ok(())
}

/// The header of an array of words, up to its brace.
fn header_text(alloc: Global, shape: ArrayShape) -> Result<String, AllocError>
    ensures text { IfOk result (λ text. string_bytes text ≡ bare_header (axes_text shape)) }
    ensures small { IfOk result (λ _. IsSmall shape) }
{
    let axes = shape.text(alloc)?;
    format!(in alloc; "{{'descr': '<u4', 'fortran_order': False, 'shape': ({axes}), }}")
}

/// So many blanks.
fn blanks(count: usize) -> &'static [u8]
    requires few { count ≤ 128 }
    ensures { result.now ≡ replicate count 32 }
{
    &BLANKS[..count]
}

/// Writes blanks at the end, until there are so many bytes.
fn push_blanks(bytes: &mut Vec<u8>, count: usize) -> Result<(), AllocError>
    requires room { length bytes.old.items ≤ count }
    requires few { count ≤ 128 }
    ensures pushed { OnOk result (bytes.new.items ≡ bytes.old.items ++ replicate (count - length bytes.old.items) 32) }
{
    let missing = count - bytes.len();
    bytes.extend_from_slice(blanks(missing))?;
    Ok(())
}

/// The front of the file of an array of words, with room for so many bytes.
fn front_bytes(alloc: Global, shape: ArrayShape, room: usize) -> Result<Vec<u8>, AllocError>
    ensures front { IfOk result (λ v. v.items ≡ front_text shape) }
    ensures small { IfOk result (λ _. IsSmall shape) }
{
    let header = header_text(alloc, shape)?;
    let mut bytes = Vec::with_capacity(alloc, room)?;
    bytes.extend_from_slice(&MAGIC)?;
    bytes.extend_from_slice(&[1, 0])?;
    bytes.extend_from_slice(&HEADER.to_le_bytes())?;
    bytes.extend_from_slice(header.as_bytes())?;
    push_blanks(&mut bytes, FRONT - 1)?;
    bytes.push(b'\n')?;
    Ok(bytes)
}

/// The file of an array of this shape with these words, which are as many.
fn whole_file(alloc: Global, shape: ArrayShape, words: &[u32]) -> Result<Vec<u8>, AllocError>
    requires whole { length words.now ≡ element_count shape }
    ensures file { IfOk result (λ v. v.items ≡ npy_file shape words.now) }
    ensures reads_back { IsRow shape → length words.now < 2 ^ 32 → IfOk result (λ v. IsReading v.items (Ok words.now)) }
{
    let mut bytes = front_bytes(
        alloc,
        shape,
        FRONT.saturating_add(words.len().saturating_mul(4)),
    )?;
    push_words(&mut bytes, words)?;
    Ok(bytes)
}

/// The file of an array of this shape with these words, byte for byte as NumPy writes one of type `'<u4'`. `Count` comes
/// where the words are not as many as the shape has elements, whatever memory there is; of any others the only fault is
/// `Memory`. Besides the file a header's memory is taken.
pub fn npy_bytes(alloc: Global, shape: ArrayShape, words: &[u32]) -> Result<Vec<u8>, WriteFault>
    ensures file { IfOk result (λ v. v.items ≡ npy_file shape words.now) }
    ensures reads_back { IsRow shape → length words.now < 2 ^ 32 → IfOk result (λ v. IsReading v.items (Ok words.now)) }
    ensures count { length words.now ≢ element_count shape → result ≡ Err Count }
    ensures memory { length words.now ≡ element_count shape → IfErr result (λ fault. fault ≡ Memory) }
{
    if !shape.has(words.len()) {
        return Err(WriteFault::Count);
    }
    let bytes = whole_file(alloc, shape, words)?;
    Ok(bytes)
}
