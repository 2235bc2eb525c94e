//! Readers and writers that count their calls and keep a mark once a call failed.
ghost use Rattle.std.specs.Prelude.{◌≡◌, ◌<◌, ◌≤◌, ◌+◌, ◌-◌, ◌^◌, min, true, false, ◌||◌, length, take, IfOk, IfErr, OnOk, is_err};
ghost use Rattle.std.specs.Io.KnownBytes.{Appends, WriteAppends, ReadConsumes};
ghost use Rattle.report_text.specs.Device.{counted};

use std::io::{Read, Write};
use std::marker::Model;
use thiserror::Error;

/// The device refused a call.
#[derive(Clone, Copy, Debug, PartialEq, Eq, Error)]
#[error("the device refused a call")]
pub struct DeviceFault;

/// A text was written in part alone: its first `written` bytes went out.
#[derive(Clone, Copy, Debug, PartialEq, Eq, Error)]
#[error("only the first {written} bytes were written")]
pub struct Cut {
    /// How many bytes went out.
    pub written: u64,
}

/// A reader or a writer that counts its calls, and has a mark from the first call on that failed.
#[derive(Drop)]
pub struct Tally<T> {
    inner: T,
    failed: bool,
    calls: u64,
}

impl<T> Model for Tally<T> {
    ghost use Rattle.report_text.specs.Device.{Counted};

    ghost Value = { Counted T };

    ghost view = { λ a. record { inner = a.inner; failed = a.failed; calls = a.calls } };
}

impl<T> Tally<T> {
    /// A device with no call so far and no mark.
    pub fn new(inner: T) -> Tally<T>
        ensures fresh { result ≡ record { inner = inner; failed = false; calls = 0 } }
    {
        Tally {
            inner,
            failed: false,
            calls: 0,
        }
    }

    /// Whether a call failed.
    pub fn failed(&self) -> bool
        ensures mark { result ≡ self.now.failed }
    {
        self.failed
    }

    /// How many calls were made, stopped at the type's end.
    pub fn calls(&self) -> u64
        ensures calls { result ≡ self.now.calls }
    {
        self.calls
    }

    /// The reader or writer itself.
    pub fn inner(&self) -> &T
        ensures inner { result.now ≡ self.now.inner }
    {
        &self.inner
    }

    /// Counts one call more.
    fn count_call(&mut self)
        ensures { self.new ≡ record { inner = self.old.inner; failed = self.old.failed; calls = counted self.old.calls } }
    {
        self.calls = self.calls.saturating_add(1);
    }

    /// Sets the mark.
    fn refuse(&mut self) -> DeviceFault
        ensures { self.new ≡ record { inner = self.old.inner; failed = true; calls = self.old.calls } }
    {
        self.failed = true;
        DeviceFault
    }
}

impl<W: Write> Tally<W> {
    /// Writes some bytes of the slice by one call of the writer. An error of the writer sets the mark, and so
    /// does a call that takes no byte of a slice that has some.
    pub fn write_some(&mut self, bytes: &[u8]) -> Result<usize, DeviceFault>
        ensures calls { self.new.calls ≡ counted self.old.calls }
        ensures mark { self.new.failed ≡ (self.old.failed || is_err result) }
        ensures taken { IfOk result (λ n. (n ≤ length bytes.now) × (0 < length bytes.now → 0 < n)) }
        ensures bytes { WriteAppends (W.contents self.old.inner) (W.contents self.new.inner) result bytes.now }
    {
        self.count_call();
        match self.inner.write(bytes) {
            Ok(0) if !bytes.is_empty() => Err(self.refuse()),
            Ok(taken) => Ok(taken),
            Err(_) => Err(self.refuse()),
        }
    }
}

impl<R: Read> Tally<R> {
    /// Reads some bytes into the slice by one call of the reader. An error of the reader sets the mark.
    pub fn read_some(&mut self, buffer: &mut [u8]) -> Result<usize, DeviceFault>
        ensures calls { self.new.calls ≡ counted self.old.calls }
        ensures mark { self.new.failed ≡ (self.old.failed || is_err result) }
        ensures given { IfOk result (λ n. n ≤ length buffer.new) }
        ensures bytes { ReadConsumes (R.remaining self.old.inner) (R.remaining self.new.inner) result buffer.new }
    {
        self.count_call();
        match self.inner.read(buffer) {
            Ok(given) => Ok(given),
            Err(_) => Err(self.refuse()),
        }
    }
}

/// Writes the whole text, or says how many of its bytes went out before the device refused. Either way the calls are
/// counted on, at most one for each byte of the text.
pub fn write_text<W: Write>(out: &mut Tally<W>, text: &[u8]) -> Result<(), Cut>
    requires unmarked { out.old.failed ≡ false }
    ensures mark { out.new.failed ≡ is_err result }
    ensures calls_never_fall { min out.old.calls (2 ^ 64 - 1) ≤ out.new.calls }
    ensures calls_take_bytes { out.new.calls ≤ out.old.calls + length text.now }
    ensures ok { OnOk result (Appends (W.contents out.old.inner) (W.contents out.new.inner) text.now) }
    ensures cut { IfErr result (λ c. (c.written ≤ length text.now)
        × Appends (W.contents out.old.inner) (W.contents out.new.inner) (take c.written text.now)) }
{
    let mut written = 0usize;
    while written < text.len() {
        match out.write_some(&text[written..]) {
            Ok(taken) => written += taken,
            Err(DeviceFault) => {
                return Err(Cut {
                    written: written as u64,
                });
            }
        }
    }
    Ok(())
}
