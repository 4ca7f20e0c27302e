//! The reasons why a trace has no verdict, or it wasn't written.

ghost use Rattle.std.specs.Prelude.{◌≡◌};
ghost use Rattle.trace_check.specs.declared.fault.CheckFault.TheVariants as check;
ghost use Rattle.trace_check.specs.Checks.{is_memory, refusal_of};

use atom_graph::FeedFault;
use std::alloc::AllocError;
use thiserror::Error;
use trace::DeviceFailure;
use trace_text::TraceFault;

/// A reason why a trace has no verdict, or it wasn't written.
#[derive(Clone, Copy, Debug, PartialEq, Eq, Error)]
pub enum CheckFault {
    /// X01, X02: the text is no trace, or memory ran out while reading it.
    #[error("{0}")]
    Trace(TraceFault),
    /// F01: the item of this line, from 1, is an exit of a method other than its thread's innermost open one.
    #[error("F01 Unmatched line {line}")]
    Unmatched { line: usize },
    /// F02: the trace has more than 100,000,000 events.
    #[error("F02 TooMany")]
    TooMany,
    /// F03: memory ran out for an item.
    #[error("F03 Memory")]
    ItemMemory,
    /// Memory ran out for anything else.
    #[error("Memory")]
    Memory,
    /// P05: the writer failed.
    #[error("P05 Output")]
    Output,
}

impl CheckFault {
    /// Decides whether memory ran out.
    pub fn is_memory(self) -> bool
        ensures { result ≡ is_memory self }
    {
        matches!(
            self,
            CheckFault::Trace(TraceFault::Memory) | CheckFault::ItemMemory | CheckFault::Memory
        )
    }

    /// Returns the fault of an item that was refused. `line` is its line, from 1.
    pub(crate) fn of_item(line: usize, fault: FeedFault) -> CheckFault
        ensures { result ≡ refusal_of line fault }
    {
        match fault {
            FeedFault::Unmatched => CheckFault::Unmatched { line },
            FeedFault::TooMany => CheckFault::TooMany,
            FeedFault::Memory => CheckFault::ItemMemory,
        }
    }
}

impl From<TraceFault> for CheckFault {
    ghost from_gives = { λ fault error. error ≡ check.Trace fault };

    fn from(fault: TraceFault) -> CheckFault {
        CheckFault::Trace(fault)
    }
}

impl From<AllocError> for CheckFault {
    ghost from_gives = { λ _ error. error ≡ check.Memory };

    fn from(_error: AllocError) -> CheckFault {
        CheckFault::Memory
    }
}

impl From<DeviceFailure> for CheckFault {
    ghost from_gives = { λ _ error. error ≡ check.Output };

    fn from(_failure: DeviceFailure) -> CheckFault {
        CheckFault::Output
    }
}
