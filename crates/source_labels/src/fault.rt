//! The faults of code whose labels have no table.

ghost use Rattle.std.specs.Prelude.{◌≡◌};
ghost use Rattle.source_labels.specs.declared.fault.LabelsFault.TheVariants.{Memory};

use std::alloc::AllocFailed;
use thiserror::Error;

/// A fault of code whose labels have no table.
#[derive(Clone, Copy, Debug, Error)]
pub enum LabelsFault {
    /// A label is defined twice.
    #[error("A02 RepeatedLabel")]
    Repeated,
    /// Memory ran out.
    #[error("Memory")]
    Memory,
}

impl<T: Drop> From<AllocFailed<T>> for LabelsFault {
    ghost from_gives = { λ _ e. e ≡ Memory };

    fn from(_e: AllocFailed<T>) -> LabelsFault {
        LabelsFault::Memory
    }
}
