//! Departures of which some are left out.

ghost use Rattle.std.specs.Prelude.{◌≡◌, ◌+◌, ◌≤◌, length, IfOk};
ghost use Rattle.shrinking.specs.Parts.{without};

use departures::Departure;
use std::alloc::{AllocError, Global};

/// Returns departures without this number of them, from an index on.
pub(crate) fn without(
    alloc: Global,
    departures: &[Departure],
    index: usize,
    count: usize,
) -> Result<Vec<Departure>, AllocError>
    requires { index + count ≤ length departures.now }
    ensures { IfOk result (λ rest. rest.items ≡ without index count departures.now) }
{
    let mut rest = Vec::with_capacity(alloc, departures.len() - count)?;
    rest.extend_from_slice(&departures[..index])?;
    rest.extend_from_slice(&departures[index + count..])?;
    Ok(rest)
}
