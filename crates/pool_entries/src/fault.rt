//! Why a name, a member or a constant has no number.

ghost use Rattle.std.specs.Prelude.{◌≡◌};
ghost use Rattle.pool_entries.specs.declared.fault.EntryFault.TheVariants.{Memory};
ghost use Rattle.pool_entries.specs.Faults.{fault_of};

use const_pool::PoolFault;
use std::alloc::AllocError;
use thiserror::Error;

/// The reason why a name, a member or a constant has no number.
#[derive(Clone, Copy, Debug, PartialEq, Eq, Error)]
pub enum EntryFault {
    /// A text would have more than 65535 bytes of Modified UTF-8 (JVMS 4.4.7).
    #[error("a text is too long")]
    TooLong,
    /// A number above 65534 would be needed (JVMS 4.1).
    #[error("the constant pool is full")]
    PoolFull,
    /// Memory ran out.
    #[error("out of memory")]
    Memory,
}

impl From<PoolFault> for EntryFault {
    ghost from_gives = { λ e fault. fault ≡ fault_of e };

    fn from(fault: PoolFault) -> EntryFault {
        match fault {
            PoolFault::PoolFull => EntryFault::PoolFull,
            PoolFault::Memory => EntryFault::Memory,
        }
    }
}

impl From<AllocError> for EntryFault {
    ghost from_gives = { λ _ fault. fault ≡ Memory };

    fn from(_error: AllocError) -> EntryFault {
        EntryFault::Memory
    }
}
