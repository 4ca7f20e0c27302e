//! The ranges of a run's limits.

ghost use Rattle.std.specs.Prelude.{◌≡◌};
ghost use Rattle.jvms_machine.specs.Limits.{are_limits};

use jvms_machine::machine::Limits;

/// The highest numbers of objects, elements, threads and frames.
const MOST: Limits = Limits {
    objects: 16_777_216,
    elements: 268_435_456,
    threads: 1024,
    frames: 65_536,
};

/// Decides whether each limit is in its range.
pub(crate) fn are_limits(limits: Limits) -> bool
    ensures { result ≡ are_limits limits }
{
    4 <= limits.objects
        && limits.objects <= MOST.objects
        && limits.elements <= MOST.elements
        && 1 <= limits.threads
        && limits.threads <= MOST.threads
        && 1 <= limits.frames
        && limits.frames <= MOST.frames
}
