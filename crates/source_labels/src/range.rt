//! Finds ranges of code that contain no instruction.

ghost use Rattle.std.specs.Prelude.{◌≡◌};
ghost use Rattle.std.specs.List.{list_any};
ghost use Rattle.jasmin.specs.Assembling.{has_bad_range, is_bad_range};

use crate::labels::Labels;
use jasmin::source::{CatchLine, MethodLines};

/// Decides whether both labels of a catch's range are defined, but the first isn't before the second.
fn is_bad_range(labels: &Labels<'_>, catch: &CatchLine) -> bool
    ensures { result ≡ is_bad_range labels.now catch.now }
{
    match (
        labels.place(catch.from.as_slice()),
        labels.place(catch.to.as_slice()),
    ) {
        (Some(from), Some(to)) => from >= to,
        _ => false,
    }
}

/// Decides whether a catch has a bad range.
fn any_bad_range(labels: &Labels<'_>, catches: &[CatchLine]) -> bool
    ensures { result ≡ list_any (is_bad_range labels.now) catches.now }
{
    catches.iter().any(|catch| is_bad_range(labels, catch))
}

/// Decides whether the range of a catch has defined labels, but the first isn't before the second. `labels` are those
/// of the method's code.
pub fn has_bad_range(method: &MethodLines, labels: &Labels<'_>) -> bool
    requires { labels.now ≡ method.now.code }
    ensures { result ≡ has_bad_range method.now }
{
    any_bad_range(labels, method.catches.as_slice())
}
