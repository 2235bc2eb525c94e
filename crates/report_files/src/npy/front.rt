//! What stands before the header of a file, and where the header ends.
ghost use Rattle.std.specs.Prelude.{◌≡◌, ◌≢◌, ◌<◌, ◌++◌, ℕ, List, MatchOption, MatchResult};
ghost use Rattle.std.specs.Option.{option_map};
ghost use Rattle.report_text.specs.Front.{IsFront, Anything};
ghost use Rattle.report_files.specs.npy.Files.{magic, version_bytes, length_bytes, length_bound, IsFile, HasVersion};
ghost use Rattle.report_files.specs.npy.Parts.{IsFrontFault};

use crate::npy::fault::NpyFault;
use report_text::behind;

/// What a file begins with.
pub(crate) const MAGIC: [u8; 6] = *b"\x93NUMPY";

/// The version of a file.
#[derive(Clone, Copy)]
pub(crate) enum Version {
    /// 1.0, which says in two bytes how long the header is.
    One,
    /// 2.0, which says it in four.
    Two,
}

/// The version at the front, and what stands after it.
fn version_at(bytes: &[u8]) -> Option<(Version, &[u8])>
    ensures { MatchOption result ((v : Version) (rest : List ℕ) → bytes.now ≢ version_bytes v ++ rest) (λ x. bytes.now ≡ version_bytes x.0 ++ x.1.now) }
{
    if let Some(rest) = behind(&[1, 0], bytes) {
        return Some((Version::One, rest));
    }
    if let Some(rest) = behind(&[2, 0], bytes) {
        return Some((Version::Two, rest));
    }
    None
}

/// The number in two bytes at the front, and what stands after them.
fn short_at(bytes: &[u8]) -> Option<(usize, &[u8])>
    ensures { IsFront (length_bytes Version.One) (λ n. n < length_bound Version.One) Anything bytes.now (option_map (λ x. (x.0, x.1.now)) result) }
{
    let (number, rest) = bytes.split_first_chunk()?;
    Some((u16::from_le_bytes(*number) as usize, rest))
}

/// The number in four bytes at the front, and what stands after them.
fn word_at(bytes: &[u8]) -> Option<(usize, &[u8])>
    ensures { IsFront (length_bytes Version.Two) (λ n. n < length_bound Version.Two) Anything bytes.now (option_map (λ x. (x.0, x.1.now)) result) }
{
    let (number, rest) = bytes.split_first_chunk()?;
    Some((u32::from_le_bytes(*number) as usize, rest))
}

/// How long the header is, and what stands after that.
fn length_at(version: Version, bytes: &[u8]) -> Option<(usize, &[u8])>
    ensures { IsFront (length_bytes version) (λ n. n < length_bound version) Anything bytes.now (option_map (λ x. (x.0, x.1.now)) result) }
{
    match version {
        Version::One => short_at(bytes),
        Version::Two => word_at(bytes),
    }
}

/// The header of a file, and what stands after it.
pub(crate) fn split_file(bytes: &[u8]) -> Result<(&[u8], &[u8]), NpyFault>
    ensures { MatchResult result (λ x. IsFile bytes.now x.0.now x.1.now) (IsFrontFault bytes.now) }
{
    let Some(versioned) = behind(&MAGIC, bytes) else {
        return Err(NpyFault::Magic);
    };
    let Some((version, sized)) = version_at(versioned) else {
        return Err(NpyFault::Version);
    };
    let Some((length, rest)) = length_at(version, sized) else {
        return Err(NpyFault::Header);
    };
    if rest.len() < length {
        return Err(NpyFault::Header);
    }
    Ok(rest.split_at(length))
}
