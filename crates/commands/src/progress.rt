//! Shows the progress of a campaign or an exploration to a person at a terminal.

use campaigning::{Gate, JobResult};
use explorations::Observer;
use std::rt::Clock;
use std::sync::atomic::{AtomicU64, Ordering};
use std::time::Instant;

/// The least time between two lines, in milliseconds.
const SPAN: u64 = 500;

/// A gate that shows one line on standard error, at most once in each span. It has the number of jobs that are done,
/// the number of those with a cycle, and how long the others will take. A line that can't be shown is omitted, and
/// changes nothing else.
#[derive(Drop)]
pub(crate) struct Progress<'r, R: Clock + Eprint> {
    rt: &'r R,
    jobs: u64,
    began: Option<Instant>,
    done: AtomicU64,
    cycles: AtomicU64,
    /// The number of spans after which the next line is shown.
    due: AtomicU64,
}

impl<'r, R: Clock + Eprint> Progress<'r, R> {
    /// Returns a gate for a campaign of this number of jobs. Its time starts now.
    pub(crate) fn new(rt: &'r R, jobs: u64) -> Self {
        Progress {
            rt,
            jobs,
            began: Instant::now(rt).ok(),
            done: AtomicU64::new(0),
            cycles: AtomicU64::new(0),
            due: AtomicU64::new(1),
        }
    }

    /// Returns the time since the beginning in milliseconds, if the clock can be read.
    fn elapsed(&self) -> Option<u128> {
        match &self.began {
            Some(began) => Some(began.elapsed(self.rt).ok()?.as_millis()),
            None => None,
        }
    }

    /// Returns whether to show a line after this time. In each span this is true for one of the threads that ask.
    fn is_due(&self, elapsed: u128) -> bool {
        let spans = u64::try_from(elapsed / SPAN as u128).unwrap_or(u64::MAX);
        let due = self.due.load(Ordering::Relaxed);
        if spans < due {
            return false;
        }
        let next = spans.saturating_add(1);
        let taken = self
            .due
            .compare_exchange(due, next, Ordering::Relaxed, Ordering::Relaxed);
        taken.is_ok()
    }

    /// Shows how many jobs are done after this time.
    fn show(&self, elapsed: u128, done: u64) {
        let jobs = self.jobs;
        let cycles = self.cycles.load(Ordering::Relaxed);
        let seconds = seconds_left(elapsed, done, jobs);
        let _ = eprint!(self.rt;
            "\r{done} of {jobs} jobs, {cycles} with a cycle, {seconds} s left\x1b[K"
        );
    }
}

/// Returns how many seconds the remaining jobs will take, if they take as long as those that are done.
fn seconds_left(elapsed: u128, done: u64, jobs: u64) -> u128 {
    let left = jobs.saturating_sub(done) as u128;
    elapsed.saturating_mul(left) / done.max(1) as u128 / 1_000
}

impl<R: Clock + Eprint> Gate for Progress<'_, R> {
    fn before(&self, _number: u64) {}

    fn after(&self, _number: u64) {
        let done = self.done.fetch_add(1, Ordering::Relaxed).saturating_add(1);
        if let Some(elapsed) = self.elapsed()
            && self.is_due(elapsed)
        {
            self.show(elapsed, done);
        }
    }

    fn reported(&self, _number: u64, job: JobResult) {
        if job.atomicity.has_cycle() {
            self.cycles.fetch_add(1, Ordering::Relaxed);
        }
    }

    fn ended(&self) {
        if self.due.load(Ordering::Relaxed) > 1 {
            let _ = eprint!(self.rt; "\r\x1b[K");
        }
    }
}

/// An observer of an exploration that shows one line on standard error, at most once in each span. It has the number of the
/// level's runs that were made, how many are made in a second, and how long the others will take. A line that can't be
/// shown is omitted, and changes nothing else.
#[derive(Drop)]
pub(crate) struct LevelProgress<'r, R: Clock + Eprint> {
    rt: &'r R,
    began: Option<Instant>,
    departures: AtomicU64,
    jobs: AtomicU64,
    /// The time at which the level began, in milliseconds.
    since: AtomicU64,
    /// The number of spans after which the next line is shown.
    due: AtomicU64,
}

impl<'r, R: Clock + Eprint> LevelProgress<'r, R> {
    /// Returns an observer. Its time starts now.
    pub(crate) fn new(rt: &'r R) -> Self {
        LevelProgress {
            rt,
            began: Instant::now(rt).ok(),
            departures: AtomicU64::new(0),
            jobs: AtomicU64::new(0),
            since: AtomicU64::new(0),
            due: AtomicU64::new(1),
        }
    }

    /// Returns the time since the beginning in milliseconds. It is 0 if the clock can't be read.
    fn elapsed(&self) -> u64 {
        match &self.began {
            Some(began) => match began.elapsed(self.rt) {
                Ok(time) => u64::try_from(time.as_millis()).unwrap_or(u64::MAX),
                Err(_) => 0,
            },
            None => 0,
        }
    }

    /// Shows how many of the level's runs were made after this time.
    fn show(&self, elapsed: u64, runs: u64) {
        let departures = self.departures.load(Ordering::Relaxed);
        let jobs = self.jobs.load(Ordering::Relaxed);
        let time = elapsed.saturating_sub(self.since.load(Ordering::Relaxed)) as u128;
        let rate = (runs as u128).saturating_mul(1_000) / time.max(1);
        let seconds = seconds_left(time, runs, jobs);
        let _ = eprint!(self.rt;
            "\rdepartures {departures}: {runs} of {jobs} runs, {rate} a second, {seconds} s left\x1b[K"
        );
    }
}

impl<R: Clock + Eprint> Observer for LevelProgress<'_, R> {
    fn begins(&self, departures: u64, jobs: u64) {
        self.departures.store(departures, Ordering::Relaxed);
        self.jobs.store(jobs, Ordering::Relaxed);
        self.since.store(self.elapsed(), Ordering::Relaxed);
    }

    fn ran(&self, runs: u64) {
        let elapsed = self.elapsed();
        let spans = elapsed / SPAN;
        if spans >= self.due.load(Ordering::Relaxed) {
            self.due.store(spans.saturating_add(1), Ordering::Relaxed);
            self.show(elapsed, runs);
        }
    }

    fn ended(&self) {
        if self.due.load(Ordering::Relaxed) > 1 {
            let _ = eprint!(self.rt; "\r\x1b[K");
        }
    }
}
