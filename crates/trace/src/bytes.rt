//! The interfaces by which programs read and write bytes.

ghost use Rattle.std.specs.Prelude.{◌≡◌, ℕ, ◌+◌, ◌≤◌, ◌<◌, List, length, take, Option, OnOk, OnErr, IfOk};
ghost use Rattle.std.specs.Io.KnownBytes.{Appends, Keeps, Consumes, IsAtEnd};
ghost use Rattle.trace.specs.Bytes.{AppendsBeginning};

use crate::failures::Failures;
use std::io::{ErrorKind, Read, Write};
use std::sync::ledger::Ledger;

/// The failure of a read or a write.
#[derive(Clone, Copy, Debug, PartialEq, Eq)]
pub struct DeviceFailure;

/// A writer of bytes.
pub trait ByteOut {
    // The bytes written so far, if the type records them.
    ghost written: { Self → Option (List ℕ) };

    // The number of calls that have failed so far.
    ghost failures: { Self → ℕ };

    /// Writes all of the bytes. If that fails, a prefix of them was written.
    fn write_all(&mut self, bytes: &[u8]) -> Result<(), DeviceFailure>
        ensures bytes { OnOk result (Appends (written self.old) (written self.new) bytes.now) }
        ensures count { OnOk result (failures self.new ≡ failures self.old) }
        ensures beginning { OnErr result
            (AppendsBeginning (written self.old) (written self.new) bytes.now) }
        ensures failed { OnErr result (failures self.new ≡ failures self.old + 1) };
}

/// A reader of bytes.
pub trait ByteIn {
    // The bytes that are left, if the type knows them.
    ghost left: { Self → Option (List ℕ) };

    // The number of calls that have failed so far.
    ghost failures: { Self → ℕ };

    /// Reads some bytes into the buffer and returns their count. It is 0 only at the end or if the buffer is empty.
    fn read(&mut self, buffer: &mut [u8]) -> Result<usize, DeviceFailure>
        ensures within { IfOk result (λ n. n ≤ length buffer.new) }
        ensures bytes { IfOk result
            (λ n. Consumes (left self.old) (left self.new) (take n buffer.new)) }
        ensures end { IfOk result (λ n. n ≡ 0 → 0 < length buffer.new → IsAtEnd (left self.new)) }
        ensures count { OnOk result (failures self.new ≡ failures self.old) }
        ensures kept { OnErr result (Keeps (left self.old) (left self.new)) }
        ensures failed { OnErr result (failures self.new ≡ failures self.old + 1) };
}

/// A reader or a writer of the standard library, with a count of its failures.
#[derive(Drop)]
pub struct Counted<T, L: Ledger> {
    inner: T,
    failures: Failures<L>,
}

impl<T, L: Ledger> Counted<T, L> {
    /// Wraps a reader or a writer, with the failures so far.
    pub fn new(inner: T, failures: Failures<L>) -> Self
        ensures inner { result.inner ≡ inner }
        ensures failures { result.failures ≡ failures }
    {
        Counted { inner, failures }
    }

    /// Returns the wrapped reader or writer.
    pub fn inner(&self) -> &T
        ensures { result.now ≡ self.now.inner }
    {
        &self.inner
    }
}

/// Writes all of the bytes. Repeats a write that a signal interrupts.
fn write_whole<W: Write>(writer: &mut W, bytes: &[u8]) -> Result<(), DeviceFailure>
    ensures bytes { OnOk result
        (Appends (W.contents writer.old) (W.contents writer.new) bytes.now) }
    ensures beginning { OnErr result
        (AppendsBeginning (W.contents writer.old) (W.contents writer.new) bytes.now) }
{
    let mut at = 0;
    for _ in 0..u64::MAX {
        if at >= bytes.len() {
            return Ok(());
        }
        match writer.write(&bytes[at..]) {
            Ok(0) => return Err(DeviceFailure),
            Ok(count) => at += count,
            Err(error) => {
                if error.kind() != ErrorKind::Interrupted {
                    return Err(DeviceFailure);
                }
            }
        }
    }
    Err(DeviceFailure)
}

/// Reads some bytes. Repeats a read that a signal interrupts.
fn read_some<R: Read>(reader: &mut R, buffer: &mut [u8]) -> Result<usize, DeviceFailure>
    ensures within { IfOk result (λ n. n ≤ length buffer.new) }
    ensures bytes { IfOk result
        (λ n. Consumes (R.remaining reader.old) (R.remaining reader.new) (take n buffer.new)) }
    ensures end { IfOk result (λ n. n ≡ 0 → 0 < length buffer.new
        → IsAtEnd (R.remaining reader.new)) }
    ensures kept { OnErr result (Keeps (R.remaining reader.old) (R.remaining reader.new)) }
{
    for _ in 0..u64::MAX {
        match reader.read(buffer) {
            Ok(count) => return Ok(count),
            Err(error) => {
                if error.kind() != ErrorKind::Interrupted {
                    return Err(DeviceFailure);
                }
            }
        }
    }
    Err(DeviceFailure)
}

impl<T: Write, L: Ledger> ByteOut for Counted<T, L> {
    ghost written = { λ c. T.contents c.inner };

    ghost failures = { λ c. c.failures };

    fn write_all(&mut self, bytes: &[u8]) -> Result<(), DeviceFailure> {
        match write_whole(&mut self.inner, bytes) {
            Ok(()) => Ok(()),
            Err(failure) => {
                self.failures.count();
                Err(failure)
            }
        }
    }
}

impl<T: Read, L: Ledger> ByteIn for Counted<T, L> {
    ghost left = { λ c. T.remaining c.inner };

    ghost failures = { λ c. c.failures };

    fn read(&mut self, buffer: &mut [u8]) -> Result<usize, DeviceFailure> {
        match read_some(&mut self.inner, buffer) {
            Ok(count) => Ok(count),
            Err(failure) => {
                self.failures.count();
                Err(failure)
            }
        }
    }
}
