//! A gate that holds job 0.

use campaign::Gate;
use std::sync::atomic::{AtomicU64, Ordering};

/// The maximum number of rounds for which a gate waits.
const MOST_ROUNDS: u64 = 10_000_000;

/// A gate that holds job 0 until job 1 is done, for a limited number of rounds.
#[derive(Drop)]
pub(crate) struct HoldsFirst {
    done: AtomicU64,
    rounds: u64,
}

impl HoldsFirst {
    /// Returns the gate of a campaign. A single worker has no other to wait for.
    pub(crate) fn of(workers: u64) -> HoldsFirst {
        HoldsFirst {
            done: AtomicU64::new(0),
            rounds: if workers > 1 { MOST_ROUNDS } else { 0 },
        }
    }
}

impl Gate for HoldsFirst {
    fn before(&self, number: u64) {
        if number == 0 {
            for _ in 0..self.rounds {
                if self.done.load(Ordering::SeqCst) > 0 {
                    break;
                }
            }
        }
    }

    fn after(&self, number: u64) {
        if number == 1 {
            self.done.fetch_add(1, Ordering::SeqCst);
        }
    }
}
