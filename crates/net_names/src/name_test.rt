//! What is a name.
ghost use Rattle.std.specs.Prelude.{◌≡◌};
ghost use Rattle.std.specs.List.{list_any};
ghost use Rattle.net_names.specs.Naming.{is_control, is_name};

/// The most bytes of a name.
pub const MOST_NAME_BYTES: usize = 65_536;

/// Whether a control character stands among these bytes.
fn has_control(bytes: &[u8]) -> bool
    ensures { result ≡ list_any is_control bytes.now }
{
    bytes.iter().any(|byte| *byte < 32 || *byte == 127)
}

/// Whether a text is a name: not empty, at most 65,536 bytes, and without control characters, which are the bytes below
/// 32 and 127.
pub fn is_name(text: &str) -> bool
    ensures { result ≡ is_name text.now }
{
    let len = text.len();
    if len == 0 || len > MOST_NAME_BYTES {
        return false;
    }
    !has_control(text.as_bytes())
}
