//! Data in the viewer's file.
ghost use Rattle.std.specs.Prelude.{◌≡◌, ◌≢◌, ◌≤◌, ◌+◌, ◌++◌, IfOk, IfErr, Some, drop, length, take};
ghost use Rattle.memchr.specs.Find.{FindsNeedle};
ghost use Rattle.run_page.specs.declared.embed.EmbedFault.TheVariants.{Memory};
ghost use Rattle.run_page.specs.Embedding.{IsEmbedFault, IsEmbedded, StandsAt, StandsOnlyAt, mark};

use memchr::memmem;
use std::alloc::{AllocError, Global};
use thiserror::Error;

/// What stands in the viewer's file where the data is to stand.
pub const MARK: &str = "@RUN@";

/// Why there is no page.
#[derive(Clone, Copy, Debug, PartialEq, Eq, Error)]
pub enum EmbedFault {
    /// The mark stands nowhere in the viewer's file.
    #[error("NoMark")]
    NoMark,
    /// The mark stands at two places, which may share bytes.
    #[error("MarkTwice")]
    MarkTwice,
    /// Out of memory.
    #[error("Memory")]
    Memory,
}

impl From<AllocError> for EmbedFault {
    ghost from_gives = { λ _ e. e ≡ Memory };

    fn from(_error: AllocError) -> EmbedFault {
        EmbedFault::Memory
    }
}

/// The first place from `from` on at which the mark stands.
fn mark_from(viewer: &[u8], from: usize) -> Option<usize>
    requires within { from ≤ length viewer.now }
    ensures first { FindsNeedle viewer.now mark from result }
{
    match memmem::find(&viewer[from..], MARK.as_bytes()) {
        Some(place) => Some(from + place),
        None => None,
    }
}

/// The first place at which the mark stands, where it is the only one.
fn if_only(viewer: &[u8], place: usize) -> Result<usize, EmbedFault>
    requires first { FindsNeedle viewer.now mark 0 (Some place) }
    ensures only { IfOk result (StandsOnlyAt viewer.now) }
    ensures refused { IfErr result (λ fault. (fault ≢ Memory) × IsEmbedFault viewer.now fault) }
{
    match mark_from(viewer, place + 1) {
        Some(_) => Err(EmbedFault::MarkTwice),
        None => Ok(place),
    }
}

/// The one place at which the mark stands.
fn mark_place(viewer: &[u8]) -> Result<usize, EmbedFault>
    ensures only { IfOk result (StandsOnlyAt viewer.now) }
    ensures refused { IfErr result (λ fault. (fault ≢ Memory) × IsEmbedFault viewer.now fault) }
{
    match mark_from(viewer, 0) {
        Some(place) => if_only(viewer, place),
        None => Err(EmbedFault::NoMark),
    }
}

/// The bytes before a mark at a place, the data, and the bytes after the mark.
fn in_place(
    alloc: Global,
    viewer: &[u8],
    place: usize,
    content: &[u8],
) -> Result<Vec<u8>, AllocError>
    requires stands { StandsAt viewer.now place }
    ensures { IfOk result (λ v. v.items ≡ take place viewer.now ++ (content.now ++ drop (place + length mark) viewer.now)) }
{
    let (before, rest) = viewer.split_at(place);
    let after = &rest[MARK.len()..];
    let mut page = Vec::with_capacity(alloc, viewer.len().saturating_add(content.len()))?;
    page.extend_from_slice(before)?;
    page.extend_from_slice(content)?;
    page.extend_from_slice(after)?;
    Ok(page)
}

/// The viewer's file with the data in the place of its one mark, `@RUN@`.
///
/// `NoMark` comes where the mark stands nowhere in it, and `MarkTwice` where it stands at two places, which may share bytes as in
/// `@RUN@RUN@`, both before memory is taken; `Memory` only where neither does.
pub fn embedded(alloc: Global, viewer: &[u8], content: &[u8]) -> Result<Vec<u8>, EmbedFault>
    ensures page { IfOk result (λ v. IsEmbedded viewer.now content.now v.items) }
    ensures refused { IfErr result (IsEmbedFault viewer.now) }
{
    let place = mark_place(viewer)?;
    let page = in_place(alloc, viewer, place, content)?;
    Ok(page)
}
