//! The plan of an exploration.

use crate::limits::{LIMITS, MOST_TURNS};
use atom_spec::Spec;
use explore_jobs::Plan;
use machine::Entry;
use refused::{again, units_of};
use turn_limit::TurnLimit;

/// Returns the plan of an exploration under a specification. Each job starts at the `main` of a class.
pub(crate) fn plan_of(rt: &HostRuntime, spec: &str, class: &str) -> Option<Plan> {
    let spec = again!(rt, "Spec::read", Spec::read(rt.alloc(), spec))?;
    let within = again!(rt, "Spec::read", Spec::read(rt.alloc(), ""))?;
    let class = units_of(rt, class)?;
    Some(Plan {
        entry: Entry::Main { class },
        limits: LIMITS,
        most: TurnLimit::new(MOST_TURNS)?,
        spec,
        within,
        part: None,
    })
}
