//! Reads and writes files by name.

ghost use Rattle.std.specs.Prelude.{◌≡◌, ◌≤◌, ◌<◌, length, IfOk, IfSome, IsErrOf};

use output_file::{OutputFault, write_output};
use std::alloc::{AllocError, AllocFailed, Global};
use std::io::{self, ErrorKind, Read};
use std::random::RandomSource;
use std::{fs, rt};

/// The maximum number of bytes of a file.
pub const MOST_BYTES: u64 = 67_108_864;

/// A reason why a file wasn't read.
#[derive(Clone, Copy, Debug, PartialEq, Eq)]
pub enum FileFault {
    /// P02: there is no such file, or it can't be read.
    File,
    /// P01: it has more than 67,108,864 bytes.
    TooLarge,
    /// Memory ran out for its bytes.
    Memory,
}

impl From<AllocError> for FileFault {
    fn from(_error: AllocError) -> FileFault {
        FileFault::Memory
    }
}

impl<T: Drop> From<AllocFailed<T>> for FileFault {
    fn from(_error: AllocFailed<T>) -> FileFault {
        FileFault::Memory
    }
}

impl From<OutputFault> for FileFault {
    fn from(fault: OutputFault) -> FileFault {
        match fault {
            OutputFault::File => FileFault::File,
            OutputFault::Memory => FileFault::Memory,
        }
    }
}

impl From<io::Error> for FileFault {
    fn from(error: io::Error) -> FileFault {
        match error.kind() {
            ErrorKind::OutOfMemory => FileFault::Memory,
            _ => FileFault::File,
        }
    }
}

/// Files that are read by name.
pub trait Files {
    /// Returns the bytes of a file, if there are at most 67,108,864.
    fn read(&mut self, name: &str) -> Result<Vec<u8>, FileFault>;

    /// Replaces the bytes of a file. If that fails, an existing file keeps its bytes. A device gets the bytes as it is.
    fn write(&mut self, name: &str, bytes: &[u8]) -> Result<(), FileFault>;
}

/// Returns all remaining bytes of a reader. Fails if there are too many, after reading one byte more than allowed.
fn read_bounded<R: Read + Drop>(alloc: Global, reader: R) -> Result<Vec<u8>, FileFault> {
    let mut bytes = Vec::new(alloc);
    let mut bounded = reader.take(MOST_BYTES + 1);
    bounded.read_to_end(&mut bytes)?;
    if bytes.len() as u64 > MOST_BYTES {
        return Err(FileFault::TooLarge);
    }
    Ok(bytes)
}

/// The files of the operating system.
#[derive(Drop)]
pub struct SystemFiles<'r, R> {
    pub rt: &'r R,
}

impl<R: rt::Files + RandomSource + AllocGlobal> Files for SystemFiles<'_, R> {
    fn read(&mut self, name: &str) -> Result<Vec<u8>, FileFault> {
        let file = fs::open(self.rt, name)?;
        read_bounded(self.rt.alloc(), file)
    }

    fn write(&mut self, name: &str, bytes: &[u8]) -> Result<(), FileFault> {
        Ok(write_output(self.rt, name, bytes)?)
    }
}
