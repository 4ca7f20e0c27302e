//! What the parts of an exploration found together.

use crate::found::Found;
use exploring::LevelRuns;

/// What the parts of an exploration found together.
#[derive(Debug, Drop)]
pub struct Joined {
    /// The runs of all parts, from level 0 on, of the levels that each part has.
    pub levels: Vec<LevelRuns>,
    pub found: Found,
}
