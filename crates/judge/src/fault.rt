//! The reasons why a program wasn't run and judged.

ghost use Rattle.std.specs.Prelude.{◌≡◌};
ghost use Rattle.judge.specs.Faults.{judge_fault_of};
ghost use Rattle.judge.specs.declared.fault.JudgeFault.TheVariants.{Link, Machine, Memory};

use inputs::InputFault;
use linker::LinkFault;
use program_runs::ProgramFault;
use program_runs::machine::MachineFault;
use std::alloc::{AllocError, AllocFailed};
use thiserror::Error;

/// A reason why a program wasn't run and judged.
#[derive(Clone, Copy, Debug, PartialEq, Eq, Error)]
pub enum JudgeFault {
    /// C01 to C18, J01 to J12, A01 to A08: the input at this place, from 0, is no class, or memory ran out for it.
    #[error("file {file}: {fault}")]
    Input { file: usize, fault: InputFault },
    /// K01 to K06: the classes make no program, or memory ran out for it.
    #[error("{0}")]
    Link(LinkFault),
    /// M01 to M03: the entry has no machine.
    #[error("{0}")]
    Machine(MachineFault),
    /// Memory ran out for anything else.
    #[error("Memory")]
    Memory,
}

impl From<LinkFault> for JudgeFault {
    ghost from_gives = { λ fault error. error ≡ Link fault };

    fn from(fault: LinkFault) -> JudgeFault {
        JudgeFault::Link(fault)
    }
}

impl From<MachineFault> for JudgeFault {
    ghost from_gives = { λ fault error. error ≡ Machine fault };

    fn from(fault: MachineFault) -> JudgeFault {
        JudgeFault::Machine(fault)
    }
}

impl From<ProgramFault> for JudgeFault {
    ghost from_gives = { λ fault error. error ≡ judge_fault_of fault };

    fn from(fault: ProgramFault) -> JudgeFault {
        match fault {
            ProgramFault::Machine(fault) => JudgeFault::Machine(fault),
            ProgramFault::Memory => JudgeFault::Memory,
        }
    }
}

impl From<AllocError> for JudgeFault {
    ghost from_gives = { λ _ error. error ≡ Memory };

    fn from(_error: AllocError) -> JudgeFault {
        JudgeFault::Memory
    }
}

impl<T: Drop> From<AllocFailed<T>> for JudgeFault {
    ghost from_gives = { λ _ error. error ≡ Memory };

    fn from(_error: AllocFailed<T>) -> JudgeFault {
        JudgeFault::Memory
    }
}
