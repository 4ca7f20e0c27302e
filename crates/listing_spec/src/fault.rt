//! The faults of a class file that can't be listed.

ghost use Rattle.std.specs.Prelude.{◌≡◌};
ghost use Rattle.listing_spec.specs.declared.fault.ListFault.TheVariants.{Memory};

use std::alloc::{AllocError, AllocFailed};
use thiserror::Error;

/// A fault of a class file that can't be listed, by number.
#[derive(Clone, Copy, Debug, PartialEq, Eq, Error)]
pub enum ListFault {
    /// A name that is listed can't be spelled in a source, or there is no superclass.
    #[error("L01 Name")]
    Name,
    /// An instruction or a field uses a float or a double of the constant pool.
    #[error("L02 Float")]
    Float,
    /// Memory ran out.
    #[error("L03 Memory")]
    Memory,
}

impl From<AllocError> for ListFault {
    ghost from_gives = { λ _ fault. fault ≡ Memory };

    fn from(_error: AllocError) -> ListFault {
        ListFault::Memory
    }
}

impl<T: Drop> From<AllocFailed<T>> for ListFault {
    ghost from_gives = { λ _ fault. fault ≡ Memory };

    fn from(_error: AllocFailed<T>) -> ListFault {
        ListFault::Memory
    }
}
