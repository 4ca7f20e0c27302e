//! The faults of a line that has no statement.

ghost use Rattle.std.specs.Prelude.{◌≡◌};
ghost use Rattle.jasmin_instructions.specs.declared.fault.LineFault.TheVariants as fault;

use jasmin::statement::Flaw;
use std::alloc::AllocError;

/// A fault of a line that has no statement.
#[derive(Clone, Copy, Debug, Drop)]
pub enum LineFault {
    /// The fault of the least number.
    Flaw(Flaw),
    /// Memory ran out.
    Memory,
}

impl From<Flaw> for LineFault {
    ghost from_gives = { λ flaw e. e ≡ fault.Flaw flaw };

    fn from(flaw: Flaw) -> LineFault {
        LineFault::Flaw(flaw)
    }
}

impl From<AllocError> for LineFault {
    ghost from_gives = { λ _ e. e ≡ fault.Memory };

    fn from(_e: AllocError) -> LineFault {
        LineFault::Memory
    }
}
