//! The reasons why a file isn't written.

ghost use Rattle.std.specs.Prelude.{◌≡◌};
ghost use Rattle.std_io.specs.IoError.{error_kind};
ghost use Rattle.output_file.specs.Faults.{IsFaultOf};
ghost use Rattle.output_file.specs.declared.fault.OutputFault.TheVariants.{Memory};

use std::alloc::AllocError;
use std::io::{self, ErrorKind};

/// A reason why a file isn't written.
#[derive(Clone, Copy, Debug, PartialEq, Eq)]
pub enum OutputFault {
    /// The system refuses it, no name is free, or the file would exceed the limit on files of this process.
    File,
    /// Memory ran out.
    Memory,
}

impl From<AllocError> for OutputFault {
    ghost from_gives = { λ _ fault. fault ≡ Memory };

    fn from(_error: AllocError) -> OutputFault {
        OutputFault::Memory
    }
}

impl From<io::Error> for OutputFault {
    ghost from_gives = { λ error fault. IsFaultOf (error_kind error) fault };

    fn from(error: io::Error) -> OutputFault {
        match error.kind() {
            ErrorKind::OutOfMemory => OutputFault::Memory,
            _ => OutputFault::File,
        }
    }
}
