//! Why a descriptor was not parsed.

ghost use Rattle.std.specs.Prelude.{◌≡◌};
ghost use Rattle.descriptor.specs.declared.fault.DescriptorFault.TheVariants.{Memory};

use std::alloc::{AllocError, AllocFailed};
use thiserror::Error;

/// The reason why a descriptor was not parsed.
#[derive(Clone, Copy, Debug, PartialEq, Eq, Error)]
pub enum DescriptorFault {
    /// The text spells no type of the wanted kind.
    #[error("malformed descriptor")]
    Malformed,
    /// Memory ran out.
    #[error("out of memory")]
    Memory,
}

impl From<AllocError> for DescriptorFault {
    ghost from_gives = { λ _ e. e ≡ Memory };

    fn from(_e: AllocError) -> DescriptorFault {
        DescriptorFault::Memory
    }
}

impl<T: Drop> From<AllocFailed<T>> for DescriptorFault {
    ghost from_gives = { λ _ e. e ≡ Memory };

    fn from(_e: AllocFailed<T>) -> DescriptorFault {
        DescriptorFault::Memory
    }
}
