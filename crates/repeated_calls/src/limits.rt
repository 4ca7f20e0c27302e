//! The limits of the machines that the calls make.

use machine::Limits;

/// The limits of each machine.
pub(crate) const LIMITS: Limits = Limits {
    objects: 1_000,
    elements: 1_000,
    threads: 16,
    frames: 64,
};

/// The maximum number of turns of a run.
pub(crate) const MOST_TURNS: u64 = 400;
