//! The table of a part of a campaign.

use campaign::Table;

/// The table of consecutive jobs of a campaign.
#[derive(Debug, Drop)]
pub struct Part {
    /// The number of the first job. It is 0 if there is no job.
    pub first: u64,
    pub table: Table,
}

impl Part {
    /// Returns the number of the job after the last one, or the greatest number if that is beyond it.
    pub(crate) fn next(&self) -> u64 {
        self.first.saturating_add(self.table.results.len() as u64)
    }
}
