//! Arrays that are read.
ghost use Rattle.std.specs.Prelude.{◌≡◌, ◌≢◌, ◌*◌, ◌<◌, ◌≤◌, ◌^◌, ℕ, List, length, find, IfOk, MatchResult, Ok, Err};
ghost use Rattle.std.specs.List.{range_with_len};
ghost use Rattle.report_files.specs.declared.npy.element.Element.{Element};
ghost use Rattle.report_files.specs.declared.npy.fault.NpyFault.{NpyFault};
ghost use Rattle.report_files.specs.declared.npy.fault.NpyFault.TheVariants.{Memory};
ghost use Rattle.report_files.specs.npy.Arrays.{IsArray, IsNoArray, IsReading, HasVerdict, is_misfit, number_at, size, value_bound, values, verdict};
ghost use Rattle.report_files.specs.npy.Parts.{AreValues};

use crate::npy::element::{Element, element_named};
use crate::npy::fault::NpyFault;
use crate::npy::front::split_file;
use crate::npy::header::header_words;
use crate::npy::shape::count_in;
use std::alloc::{AllocError, Global};

/// An array of one axis.
#[derive(Clone, Copy)]
struct Column<'a> {
    element: Element,
    count: u32,
    body: &'a [u8],
}

/// The array that a file says it has.
#[tactic(auto, using(crate::proofs::npy::Arrays::no_front))]
fn column_in(bytes: &[u8]) -> Result<Column<'_>, NpyFault>
    ensures { MatchResult result (λ c. IsArray bytes.now c.element c.count c.body.now) (IsNoArray bytes.now) }
{
    let (header, body) = split_file(bytes)?;
    let Some(words) = header_words(header) else {
        return Err(NpyFault::Header);
    };
    let Some(element) = element_named(words.kind) else {
        return Err(NpyFault::Kind);
    };
    let Some(count) = count_in(words.shape) else {
        return Err(NpyFault::Shape);
    };
    Ok(Column {
        element,
        count,
        body,
    })
}

/// The first element that is no value.
#[tactic(auto, using(crate::proofs::npy::Searches::find_next, crate::proofs::npy::Searches::find_last))]
fn first_misfit(element: Element, count: u32, body: &[u8]) -> Option<u32>
    requires whole { length body.now ≡ size element * count }
    ensures { result ≡ find (is_misfit element body.now) (range_with_len 0 count) }
{
    for place in 0..count {
        if element.number_at(body, place as usize) >= element.value_bound() {
            return Some(place);
        }
    }
    None
}

/// Refuses an array whose bytes are not as many as its header asks for, or with an element that is no value.
#[tactic(auto, using(crate::proofs::npy::Elements::fitting))]
fn check_column(element: Element, count: u32, body: &[u8]) -> Result<(), NpyFault>
    ensures verdict { MatchResult result (λ _. verdict element count body.now ≡ Ok (values element count body.now)) (λ fault. verdict element count body.now ≡ Err fault) }
    ensures whole { IfOk result (λ _. length body.now ≡ size element * count) }
    ensures small { IfOk result (λ _. AreValues element count body.now) }
{
    let expected = element.size() as u64 * count as u64;
    let found = body.len() as u64;
    if found != expected {
        return Err(NpyFault::Length { expected, found });
    }
    match first_misfit(element, count, body) {
        Some(place) => Err(NpyFault::Value { place }),
        None => Ok(()),
    }
}

/// The values of the elements.
fn read_values(
    alloc: Global,
    element: Element,
    count: u32,
    body: &[u8],
) -> Result<Vec<u32>, AllocError>
    requires whole { length body.now ≡ size element * count }
    requires small { AreValues element count body.now }
    ensures { IfOk result (λ v. v.items ≡ values element count body.now) }
{
    let mut words = Vec::with_capacity(alloc, count as usize)?;
    for place in 0..count {
        words.push(element.number_at(body, place as usize) as u32)?;
    }
    Ok(words)
}

/// The values of the array in a file, or why there are none.
fn read_column(alloc: Global, bytes: &[u8]) -> Result<Vec<u32>, NpyFault>
    ensures reading { MatchResult result (λ v. IsReading bytes.now (Ok v.items)) (λ fault. fault ≢ Memory → IsReading bytes.now (Err fault)) }
    ensures memory { result ≡ Err Memory → (words : List ℕ) × IsReading bytes.now (Ok words) }
{
    let Column {
        element,
        count,
        body,
    } = column_in(bytes)?;
    check_column(element, count, body)?;
    let words = read_values(alloc, element, count, body)?;
    Ok(words)
}

/// Reads a file of NumPy with an array of one axis whose elements are whole numbers from 0 to 4,294,967,295: its values, or
/// the first fault in the order of [`NpyFault`], which is found before memory is taken. The type is `'|u1'`, `'<u2'`,
/// `'<u4'`, `'<u8'`, `'<i4'` or `'<i8'`; of one axis either order is the same. Besides the values no memory is taken.
pub fn read_npy(alloc: Global, bytes: &[u8]) -> Result<Vec<u32>, NpyFault>
    ensures reading { MatchResult result (λ v. IsReading bytes.now (Ok v.items)) (λ fault. fault ≢ Memory → IsReading bytes.now (Err fault)) }
    ensures every_array { (element : Element) (count : ℕ) (body : List ℕ) → IsArray bytes.now element count body → MatchResult result (λ v. verdict element count body ≡ Ok v.items) (λ fault. fault ≢ Memory → verdict element count body ≡ Err fault) }
    ensures refused { (fault : NpyFault) → IsReading bytes.now (Err fault) → result ≡ Err fault }
{
    read_column(alloc, bytes)
}
