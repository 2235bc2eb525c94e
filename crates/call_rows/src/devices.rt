//! Counted readers and writers, over devices that take or give few bytes, or fail.

use crate::fixtures::devices::{LateSource, Source, late_writer, writer};
use lockstep::{DeviceFault, Tally, write_text};
use std::io::{ErrorKind, Read, Write};
use std::process::Abort;
use std::test::Fail;

/// The text that is written and read.
const TEXT: &[u8] = b"0 moves 1 s=7\n1 moves 1 s=5\n";

#[test]
fn empty_text(rt: HostRuntime) -> Result<(), Fail> {
    let mut out = Tally::new(writer(rt.alloc(), 1, 0, ErrorKind::BrokenPipe));
    write_text(&mut out, b"")?;
    assert_eq!(rt; (out.calls(), out.failed()), (0, false));
    Ok(())
}

/// Bytes, what their call answers, and after it the number of calls and the mark: the device failed, in this call or
/// before.
type Written = (&'static [u8], Result<usize, DeviceFault>, u64, bool);

/// Asserts what the first, second, .. call answers.
fn assert_writes<W: Write>(rt: &impl Abort, out: &mut Tally<W>, rows: &[Written]) {
    for (bytes, want, calls, failed) in rows {
        assert_eq!(rt; out.write_some(bytes), *want);
        assert_eq!(rt; (out.calls(), out.failed()), (*calls, *failed));
    }
}

/// Writes to a device that takes four bytes a call, and six in all.
const TO_A_NARROW_DEVICE: [Written; 5] = [
    (b"", Ok(0), 1, false),
    (b"abcdefg", Ok(4), 2, false),
    (b"efg", Ok(2), 3, false),
    (b"g", Err(DeviceFault), 4, true),
    (b"", Ok(0), 5, true),
];

#[test]
fn writes_with_marks(rt: HostRuntime) {
    let mut out = Tally::new(writer(rt.alloc(), 4, 6, ErrorKind::WouldBlock));
    assert_eq!(rt; (out.calls(), out.failed()), (0, false));
    assert_writes(&rt, &mut out, &TO_A_NARROW_DEVICE);
    assert_eq!(rt; out.inner().held.as_slice(), b"abcdef".as_slice());
}

/// A device that fails its first call alone: the error is answered, and the device is not called again.
#[test]
fn an_error_of_a_writer_is_answered(rt: HostRuntime) {
    for kind in [
        ErrorKind::Interrupted,
        ErrorKind::WouldBlock,
        ErrorKind::BrokenPipe,
    ] {
        let mut out = Tally::new(late_writer(rt.alloc(), kind));
        assert_writes(&rt, &mut out, &[(b"abc", Err(DeviceFault), 1, true)]);
        assert_eq!(rt; out.inner().held.as_slice(), b"".as_slice());
        assert_writes(&rt, &mut out, &[(b"abc", Ok(3), 2, true)]);
        assert_eq!(rt; out.inner().held.as_slice(), b"abc".as_slice());
    }
}

#[test]
fn an_error_of_a_reader_is_answered(rt: HostRuntime) {
    for kind in [
        ErrorKind::Interrupted,
        ErrorKind::WouldBlock,
        ErrorKind::BrokenPipe,
    ] {
        let mut input = Tally::new(LateSource {
            rest: b"abc",
            refusal: Some(kind),
        });
        let mut buffer = [0; 2];
        assert_read(&rt, &mut input, &mut buffer, Err(DeviceFault), b"\0\0");
        assert_calls(&rt, &input, 1, true);
        assert_read(&rt, &mut input, &mut buffer, Ok(2), b"ab");
        assert_calls(&rt, &input, 2, true);
    }
}

/// Asserts what one call answers, and what it left in the buffer.
fn assert_read<R: Read>(
    rt: &impl Abort,
    input: &mut Tally<R>,
    buffer: &mut [u8],
    want: Result<usize, DeviceFault>,
    bytes: &[u8],
) {
    assert_eq!(rt; input.read_some(buffer), want);
    assert_eq!(rt; &*buffer, bytes);
}

/// Asserts how many calls were made, and the mark.
fn assert_calls<R: Read>(rt: &impl Abort, input: &Tally<R>, calls: u64, failed: bool) {
    assert_eq!(rt; (input.calls(), input.failed()), (calls, failed));
}

/// Asserts what is read of two bytes that one call each gives, and of their end: an error of this kind.
fn assert_marks(rt: &impl Abort, kind: ErrorKind) {
    let mut input = Tally::new(Source {
        rest: b"ab",
        most: 1,
        end: Some(kind),
    });
    let mut buffer = [0; 2];
    assert_read(rt, &mut input, &mut buffer, Ok(1), b"a\0");
    assert_read(rt, &mut input, &mut buffer, Ok(1), b"b\0");
    assert_calls(rt, &input, 2, false);
    assert_read(rt, &mut input, &mut [0; 2], Err(DeviceFault), b"\0\0");
    assert_calls(rt, &input, 3, true);
    assert_read(rt, &mut input, &mut [], Ok(0), b"");
    assert_calls(rt, &input, 4, true);
}

#[test]
fn reads_with_marks(rt: HostRuntime) {
    assert_marks(&rt, ErrorKind::Interrupted);
    assert_marks(&rt, ErrorKind::WouldBlock);
    assert_marks(&rt, ErrorKind::BrokenPipe);
}

/// Asserts what is read of bytes that one call each gives, and of their end: an error.
fn assert_bytes(rt: &impl Abort, bytes: &[u8]) {
    let mut input = Tally::new(Source {
        rest: bytes,
        most: 1,
        end: Some(ErrorKind::Interrupted),
    });
    for byte in bytes {
        assert_read(rt, &mut input, &mut [0], Ok(1), &[*byte]);
    }
    assert!(rt; !input.failed());
    assert_eq!(rt; input.read_some(&mut [0]), Err(DeviceFault));
    assert_calls(rt, &input, (bytes.len() as u64).saturating_add(1), true);
}

#[test]
fn reads_fail_after_each_number_of_bytes(rt: HostRuntime) {
    for room in 0..TEXT.len() {
        assert_bytes(&rt, &TEXT[..room]);
    }
}
