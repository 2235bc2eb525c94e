//! Bytes cut in two.
ghost use Rattle.std.specs.Prelude.{◌≡◌, ◌+◌, take, drop};

/// The bytes before a place, and those after the byte there. Past the end there is nothing.
pub fn cut_at(bytes: &[u8], place: usize) -> (&[u8], &[u8])
    ensures front { result.0.now ≡ take place bytes.now }
    ensures back { result.1.now ≡ drop (place + 1) bytes.now }
{
    if place < bytes.len() {
        (&bytes[..place], &bytes[place + 1..])
    } else {
        (bytes, &[])
    }
}
