//! Gates that delay jobs.

use campaign::Gate;
use std::sync::atomic::{AtomicU64, Ordering};
use std::thread::yield_now;

/// The maximum number of rounds for which a gate waits.
const MOST_ROUNDS: u64 = 1_000_000_000;

/// Waits until a count is reached, for `MOST_ROUNDS` at most. Returns whether it was reached.
fn is_reached(count: &AtomicU64, wanted: u64) -> bool {
    for _ in 0..MOST_ROUNDS {
        if count.load(Ordering::SeqCst) >= wanted {
            return true;
        }
        yield_now();
    }
    false
}

/// A gate that holds job 0 until job 1 is done.
#[derive(Drop)]
pub struct HoldsFirst {
    pub done: AtomicU64,
    pub late: AtomicU64,
}

impl Gate for HoldsFirst {
    fn before(&self, number: u64) {
        if number == 0 && !is_reached(&self.done, 1) {
            self.late.fetch_add(1, Ordering::SeqCst);
        }
    }

    fn after(&self, number: u64) {
        if number == 1 {
            self.done.fetch_add(1, Ordering::SeqCst);
        }
    }
}

/// A gate that holds each job until the wanted number of them have arrived.
#[derive(Drop)]
pub struct Meets {
    pub came: AtomicU64,
    pub wanted: u64,
    pub late: AtomicU64,
}

impl Gate for Meets {
    fn before(&self, _number: u64) {
        self.came.fetch_add(1, Ordering::SeqCst);
        if !is_reached(&self.came, self.wanted) {
            self.late.fetch_add(1, Ordering::SeqCst);
        }
    }

    fn after(&self, _number: u64) {}
}
