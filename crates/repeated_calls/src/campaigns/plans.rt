//! The plan of a campaign.

use crate::limits::{LIMITS, MOST_TURNS};
use atom_spec::Spec;
use campaign::{Choosing, Plan};
use machine::Entry;
use refused::{again, units_of};
use turn_limit::TurnLimit;

/// Returns the plan of a number of jobs under a specification. Each job starts at the `main` of a class.
pub(crate) fn plan_of(rt: &HostRuntime, jobs: u64, spec: &str, class: &str) -> Option<Plan> {
    let spec = again!(rt, "Spec::read", Spec::read(rt.alloc(), spec))?;
    let class = units_of(rt, class)?;
    Some(Plan {
        entry: Entry::Main { class },
        limits: LIMITS,
        jobs,
        first: 0,
        seed: 0,
        choosing: Choosing::Random,
        most: TurnLimit::new(MOST_TURNS)?,
        spec,
        stop: false,
    })
}
