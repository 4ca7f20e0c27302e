//! The reasons for which a machine can't be made.

ghost use Rattle.std.specs.Prelude.{◌≡◌};
ghost use Rattle.machine.specs.declared.fault.MachineFault.TheVariants.{Memory};

use std::alloc::{AllocError, AllocFailed};
use thiserror::Error;

/// The reason for which a machine wasn't made. The reasons are tested in this order.
#[derive(Clone, Copy, Debug, PartialEq, Eq, Error)]
pub enum MachineFault {
    /// The entry names no static method but `<clinit>`, or the method doesn't take the arguments.
    #[error("M01 NoEntry")]
    NoEntry,
    /// A limit is out of its range.
    #[error("M02 Limits")]
    Limits,
    /// There was no memory for the machine.
    #[error("M03 Memory")]
    Memory,
}

impl From<AllocError> for MachineFault {
    ghost from_gives = { λ _ fault. fault ≡ Memory };

    fn from(_error: AllocError) -> MachineFault {
        MachineFault::Memory
    }
}

impl<T: Drop> From<AllocFailed<T>> for MachineFault {
    ghost from_gives = { λ _ fault. fault ≡ Memory };

    fn from(_error: AllocFailed<T>) -> MachineFault {
        MachineFault::Memory
    }
}
