//! Why bytes were not decoded as a text.

ghost use Rattle.std.specs.Prelude.{◌≡◌};
ghost use Rattle.mutf8.specs.declared.fault.Fault.TheVariants.{Memory};

use std::alloc::{AllocError, AllocFailed};
use thiserror::Error;

/// The reason why bytes were not decoded as a text.
#[derive(Debug, Drop, Error)]
pub enum Fault {
    /// The bytes are no Modified UTF-8. A unit should begin at byte `at`, the first at which none does.
    #[error("no Modified UTF-8 at byte {at}")]
    BadUtf8 { at: usize },
    /// Memory ran out.
    #[error("out of memory")]
    Memory,
}

impl From<AllocError> for Fault {
    ghost from_gives = { λ _ fault. fault ≡ Memory };

    fn from(_error: AllocError) -> Fault {
        Fault::Memory
    }
}

impl<T: Drop> From<AllocFailed<T>> for Fault {
    ghost from_gives = { λ _ fault. fault ≡ Memory };

    fn from(_error: AllocFailed<T>) -> Fault {
        Fault::Memory
    }
}
