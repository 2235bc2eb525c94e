//! The elements of an array.
ghost use Rattle.std.specs.Prelude.{◌≡◌, ◌≢◌, ◌<◌, ◌≤◌, ◌+◌, ◌*◌, ℕ, MatchOption, length, slice_range};
ghost use Rattle.std.specs.Int.{from_le_bytes, w16, w32, w64};
ghost use Rattle.report_files.specs.npy.Arrays.{kind_text, number_at, size, value_bound};

/// The type of the elements: unsigned or signed numbers of so many bits.
#[derive(Clone, Copy)]
pub(crate) enum Element {
    U8,
    U16,
    U32,
    U64,
    I32,
    I64,
}

/// The type that NumPy calls so.
pub(crate) fn element_named(kind: &[u8]) -> Option<Element>
    ensures { MatchOption result ((e : Element) → kind.now ≢ kind_text e) (λ e. kind.now ≡ kind_text e) }
{
    match kind {
        b"|u1" => Some(Element::U8),
        b"<u2" => Some(Element::U16),
        b"<u4" => Some(Element::U32),
        b"<u8" => Some(Element::U64),
        b"<i4" => Some(Element::I32),
        b"<i8" => Some(Element::I64),
        _ => None,
    }
}

/// The bytes at a place, as an array.
fn chunk_at<const N: usize>(bytes: &[u8], place: usize) -> [u8; N]
    requires within { place + N ≤ length bytes.now }
    ensures { result ≡ slice_range bytes.now place (place + N) }
{
    let mut chunk = [0; N];
    chunk.copy_from_slice(&bytes[place..place + N]);
    chunk
}

impl Element {
    /// How many bytes an element has.
    pub(crate) fn size(self) -> usize
        ensures { result ≡ size self }
    {
        match self {
            Element::U8 => 1,
            Element::U16 => 2,
            Element::U32 | Element::I32 => 4,
            Element::U64 | Element::I64 => 8,
        }
    }

    /// The bytes of the element at a place, as a number without sign.
    pub(crate) fn number_at(self, body: &[u8], place: usize) -> u64
        requires within { size self * place + size self ≤ length body.now }
        ensures { result ≡ number_at self body.now place }
    {
        match self {
            Element::U8 => body[place] as u64,
            Element::U16 => u16::from_le_bytes(chunk_at(body, 2 * place)) as u64,
            Element::U32 | Element::I32 => u32::from_le_bytes(chunk_at(body, 4 * place)) as u64,
            Element::U64 | Element::I64 => u64::from_le_bytes(chunk_at(body, 8 * place)),
        }
    }

    /// The least number that is no value.
    pub(crate) fn value_bound(self) -> u64
        ensures { result ≡ value_bound self }
    {
        match self {
            Element::I32 => 1 << 31,
            _ => 1 << 32,
        }
    }
}
