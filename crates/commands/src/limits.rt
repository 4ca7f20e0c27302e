//! The default limits of a run.

use jvms_machine::machine::Limits;

/// The default limits of a run.
pub(crate) const DEFAULT_LIMITS: Limits = Limits {
    objects: 1_000_000,
    elements: 10_000_000,
    threads: 64,
    frames: 1_024,
};
