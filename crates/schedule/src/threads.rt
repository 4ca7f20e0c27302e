//! Threads, some of which are enabled.

ghost use Rattle.std.specs.Prelude.{◌≡◌, ℕ, ◌-◌, Bool, ◌==◌, length, slice_get};
ghost use Rattle.std.specs.List.{find, list_any, range_with_len};
ghost use Rattle.schedule.specs.Choosers.{alone, default, enabled_of, may_be_enabled, next_of};
ghost use Rattle.schedule.specs.Enabled.{is_enabled_in};

use jvms_machine::machine::ThreadId;
use machine::{Machine, is_enabled};

/// A number of threads, numbered from 0, some of which are enabled.
pub(crate) trait Threads {
    // The number of threads.
    ghost count: { Self → ℕ };

    // Decides whether the thread of a number is enabled.
    ghost passes: { Self → ℕ → Bool };

    /// Returns the number of threads.
    fn count(&self) -> u32
        ensures { result ≡ count self.now };

    /// Returns whether the thread of a number is enabled.
    fn is_enabled(&self, thread: ThreadId) -> bool
        ensures { result ≡ passes self.now thread };
}

impl Threads for Machine<'_> {
    ghost count = { λ m. length m.state.threads };

    ghost passes = { is_enabled_in };

    fn count(&self) -> u32 {
        self.state_is_sound();
        let most = self.limits().threads;
        let count = self.thread_count();
        prove!(count <= most as usize);
        count as u32
    }

    fn is_enabled(&self, thread: ThreadId) -> bool {
        is_enabled(self.peek(thread))
    }
}

/// A number of threads, numbered from 0, of which all may be enabled but those that are idle.
#[derive(Clone, Copy)]
pub(crate) struct Beside<'a> {
    /// The number of threads.
    pub count: u32,
    /// Marks idle threads by their numbers: they aren't enabled. There may be others.
    pub idle: &'a [bool],
}

impl Threads for Beside<'_> {
    ghost count = { λ b. b.count };

    ghost passes = { λ b. may_be_enabled b.idle.now };

    fn count(&self) -> u32 {
        self.count
    }

    fn is_enabled(&self, thread: ThreadId) -> bool {
        !self.idle.get(thread as usize).copied().unwrap_or(false)
    }
}

/// Returns the first enabled thread from one number up to another, which is excluded.
#[tactic(auto, using(crate::proofs::Ranges::range_more, crate::proofs::Ranges::range_none))]
fn first_enabled<T: Threads>(threads: &T, from: u32, to: u32) -> Option<ThreadId>
    ensures { result ≡ find (T.passes threads.now) (range_with_len from (to - from)) }
{
    for thread in from..to {
        if threads.is_enabled(thread) {
            return Some(thread);
        }
    }
    None
}

/// Returns the next enabled thread after another: the least above it, else the least of all.
#[tactic(auto, using(crate::proofs::Ranges::next_of_within, crate::proofs::Ranges::next_of_beyond))]
pub(crate) fn next_enabled<T: Threads>(threads: &T, thread: ThreadId) -> Option<ThreadId>
    ensures { result ≡ next_of thread (enabled_of (T.passes threads.now) (T.count threads.now)) }
{
    let count = threads.count();
    if thread >= count {
        return first_enabled(threads, 0, count);
    }
    match first_enabled(threads, thread + 1, count) {
        Some(next) => Some(next),
        None => first_enabled(threads, 0, thread + 1),
    }
}

/// Returns whether a thread is among the enabled ones.
pub(crate) fn has_enabled<T: Threads>(threads: &T, thread: ThreadId) -> bool
    ensures { result
        ≡ list_any (λ t. t == thread) (enabled_of (T.passes threads.now) (T.count threads.now)) }
{
    thread < threads.count() && threads.is_enabled(thread)
}

/// Returns the last thread if it is enabled, else the next enabled one.
pub(crate) fn default<T: Threads>(threads: &T, last: ThreadId) -> Option<ThreadId>
    ensures { result ≡ default last (enabled_of (T.passes threads.now) (T.count threads.now)) }
{
    if has_enabled(threads, last) {
        Some(last)
    } else {
        next_enabled(threads, last)
    }
}

/// Returns thread 0 if it is enabled.
#[tactic(auto, using(crate::proofs::Alone::first_is_alone, crate::proofs::Alone::none_is_alone))]
pub(crate) fn alone<T: Threads>(threads: &T) -> Option<ThreadId>
    ensures { result ≡ alone (enabled_of (T.passes threads.now) (T.count threads.now)) }
{
    if threads.count() == 0 || !threads.is_enabled(0) {
        return None;
    }
    Some(0)
}

/// Returns the number of enabled threads.
#[tactic(auto, using(crate::proofs::Ranges::range_more, crate::proofs::Ranges::range_none))]
pub(crate) fn enabled_count<T: Threads>(threads: &T) -> u32
    ensures { result ≡ length (enabled_of (T.passes threads.now) (T.count threads.now)) }
{
    let mut enabled = 0;
    for thread in 0..threads.count() {
        if threads.is_enabled(thread) {
            enabled += 1;
        }
    }
    enabled
}

/// Returns the enabled thread at an index among the enabled threads.
#[tactic(auto, using(crate::proofs::Ranges::range_more, crate::proofs::Ranges::range_none))]
pub(crate) fn enabled_at<T: Threads>(threads: &T, place: u32) -> Option<ThreadId>
    ensures { result ≡ slice_get (enabled_of (T.passes threads.now) (T.count threads.now)) place }
{
    let mut before = place;
    for thread in 0..threads.count() {
        if threads.is_enabled(thread) {
            if before == 0 {
                return Some(thread);
            }
            before -= 1;
        }
    }
    None
}
