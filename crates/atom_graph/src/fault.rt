//! The reasons why an item is refused.

ghost use Rattle.std.specs.Prelude.{◌≡◌};
ghost use Rattle.atom_graph.specs.declared.fault.FeedFault.TheVariants as fault;

use std::alloc::AllocError;
use thiserror::Error;

/// A reason why an item is refused.
#[derive(Clone, Copy, Debug, PartialEq, Eq, Error)]
pub enum FeedFault {
    /// F01: the item is an exit of a method other than its thread's innermost open one.
    #[error("F01 Unmatched")]
    Unmatched,
    /// F02: the item is an event past 100,000,000.
    #[error("F02 TooMany")]
    TooMany,
    /// F03: memory ran out.
    #[error("F03 Memory")]
    Memory,
}

impl From<AllocError> for FeedFault {
    ghost from_gives = { λ _ e. e ≡ fault.Memory };

    fn from(_error: AllocError) -> FeedFault {
        FeedFault::Memory
    }
}
