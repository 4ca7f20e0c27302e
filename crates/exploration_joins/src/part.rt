//! What a part of an exploration found.

use crate::found::Found;
use exploration_parts::Part;
use exploring::LevelRuns;

/// What a part of an exploration found.
#[derive(Debug, Drop)]
pub struct PartText {
    pub part: Part,
    /// The part's runs, from level 0 on.
    pub levels: Vec<LevelRuns>,
    pub found: Found,
}
