//! The faults of a source that can't be assembled.

ghost use Rattle.std.specs.Prelude.{◌≡◌};
ghost use Rattle.assembly.specs.declared.fault.AsmFault.TheVariants.{Memory};
ghost use Rattle.assembly.specs.Faults.{fault_of};

use pool_entries::EntryFault;
use std::alloc::AllocError;
use thiserror::Error;

/// A fault of a source that can't be assembled, by number.
#[derive(Clone, Copy, Debug, PartialEq, Eq, Error)]
pub enum AsmFault {
    /// A label that is referred to is undefined, or follows the last instruction and isn't the end of a catch's range.
    #[error("A01 UndefinedLabel")]
    UndefinedLabel,
    /// A label is defined twice in a method.
    #[error("A02 RepeatedLabel")]
    RepeatedLabel,
    /// A branch with an offset of two bytes can't reach its label. No branch is lengthened.
    #[error("A03 BranchTooFar")]
    BranchTooFar,
    /// The code of a method is empty or has more than 65535 bytes.
    #[error("A04 CodeLength")]
    CodeLength,
    /// The constant pool would need an index above 65534.
    #[error("A05 PoolFull")]
    PoolFull,
    /// Memory ran out.
    #[error("A06 Memory")]
    Memory,
    /// A list of members, interfaces, catches or thrown names has more than 65535 elements, or a text more than 65535
    /// bytes.
    #[error("A07 TooMany")]
    TooMany,
    /// A catch's range doesn't begin before its end.
    #[error("A08 CatchRange")]
    CatchRange,
}

impl From<EntryFault> for AsmFault {
    ghost from_gives = { λ e fault. fault ≡ fault_of e };

    fn from(fault: EntryFault) -> AsmFault {
        match fault {
            EntryFault::TooLong => AsmFault::TooMany,
            EntryFault::PoolFull => AsmFault::PoolFull,
            EntryFault::Memory => AsmFault::Memory,
        }
    }
}

impl From<AllocError> for AsmFault {
    ghost from_gives = { λ _ fault. fault ≡ Memory };

    fn from(_error: AllocError) -> AsmFault {
        AsmFault::Memory
    }
}
