//! The faults of a FILE that is no class.

ghost use Rattle.std.specs.Prelude.{◌≡◌};
ghost use Rattle.inputs.specs.declared.fault.InputFault.TheVariants as fault;
ghost use Rattle.inputs.specs.Inputs.{is_memory};

use crate::code::ClassCode;
use assembler::AsmFault;
use class_file::ReadError;
use jasmin_reader::SourceFault;
use std::fmt;

/// A fault of a FILE that is no class.
#[derive(Clone, Copy, Debug, PartialEq, Eq)]
pub enum InputFault {
    /// C01 to C17: the bytes spell no class file. C18: memory ran out.
    Class(ReadError),
    /// J01 to J11: the text is no source. J12: memory ran out.
    Source(SourceFault),
    /// A01 to A05, A07, A08: the source can't be assembled. A06: memory ran out.
    Assembly(AsmFault),
}

impl From<ReadError> for InputFault {
    ghost from_gives = { λ error f. f ≡ fault.Class error };

    fn from(error: ReadError) -> InputFault {
        InputFault::Class(error)
    }
}

impl From<SourceFault> for InputFault {
    ghost from_gives = { λ error f. f ≡ fault.Source error };

    fn from(error: SourceFault) -> InputFault {
        InputFault::Source(error)
    }
}

impl From<AsmFault> for InputFault {
    ghost from_gives = { λ error f. f ≡ fault.Assembly error };

    fn from(error: AsmFault) -> InputFault {
        InputFault::Assembly(error)
    }
}

impl InputFault {
    /// Decides whether the fault is that memory ran out.
    pub fn is_memory(&self) -> bool
        ensures { result ≡ is_memory self.now }
    {
        matches!(
            self,
            InputFault::Class(ReadError::Memory)
                | InputFault::Source(SourceFault::Memory)
                | InputFault::Assembly(AsmFault::Memory)
        )
    }
}

impl fmt::Display for InputFault {
    fn fmt<W: fmt::Write>(&self, f: &mut fmt::Formatter<W>) -> fmt::Result {
        match self {
            InputFault::Class(error) => write!(f, "{}", ClassCode(*error)),
            InputFault::Source(fault) => write!(f, "{fault}"),
            InputFault::Assembly(fault) => write!(f, "{fault}"),
        }
    }
}
