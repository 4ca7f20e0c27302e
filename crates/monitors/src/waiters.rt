//! The waiting threads, in the order in which they began to wait.

ghost use Rattle.std.specs.Prelude.{◌≡◌, ◌==◌, ◌<◌, ◌∷◌, ◌++◌, [], length, not, IfOk, IfSome, OnErr, OnOk};
ghost use Rattle.std.specs.List.{filter, position};
ghost use Rattle.std.specs.Map.{remove_entry};
ghost use Rattle.jvms_machine.specs.Waiting.{is_waiter, waiters_of, without_notified};

use jvms_machine::machine::ThreadId;
use std::alloc::{AllocError, Global};
use std::marker::Model;

/// The threads that wait for an object and weren't notified. Contracts see a list of pairs of the object's reference
/// and the thread, the longest wait first.
#[derive(Drop)]
pub struct Waiters {
    waiters: Vec<(u32, ThreadId)>,
}

impl Model for Waiters {
    ghost use Rattle.std.specs.Prelude.{ℕ, List};

    ghost Value = { List (ℕ × ℕ) };

    ghost view = { λ w. w.waiters.items };
}

impl Waiters {
    /// Returns a list in which no thread waits. Takes no memory.
    pub fn new(alloc: Global) -> Self
        ensures { result ≡ [] }
    {
        Waiters {
            waiters: Vec::new(alloc),
        }
    }

    /// Returns a copy of the list, in the same order.
    pub fn copy(&self, alloc: Global) -> Result<Waiters, AllocError>
        ensures { IfOk result (λ w. w ≡ self.now) }
    {
        Ok(Waiters {
            waiters: Vec::from_slice(alloc, self.waiters.as_slice())?,
        })
    }

    /// Decides whether a thread waits and wasn't notified.
    pub fn contains(&self, thread: ThreadId) -> bool
        ensures { result ≡ is_waiter thread self.now }
    {
        self.waiters
            .as_slice()
            .iter()
            .any(|waiter| waiter.1 == thread)
    }

    /// Returns the threads that wait for an object, the longest wait first.
    pub fn of(&self, alloc: Global, reference: u32) -> Result<Vec<ThreadId>, AllocError>
        ensures { IfOk result (λ threads. threads.items ≡ waiters_of reference self.now) }
    {
        let waiters = self.waiters.as_slice();
        let mut threads = Vec::new(alloc);
        for waiter in waiters {
            if waiter.0 == reference {
                threads.push(waiter.1)?;
            }
        }
        Ok(threads)
    }

    /// Adds a thread that begins to wait for an object. If there is no memory, nothing changes.
    pub fn wait(&mut self, reference: u32, thread: ThreadId) -> Result<(), AllocError>
        ensures ok { OnOk result (self.new ≡ self.old ++ (reference, thread) ∷ []) }
        ensures err { OnErr result (self.new ≡ self.old) }
    {
        self.waiters.push((reference, thread))?;
        Ok(())
    }

    /// Returns the index of the thread that has waited longest for an object.
    fn oldest(&self, reference: u32) -> Option<usize>
        ensures place { result ≡ position (λ w. w.0 == reference) self.now }
        ensures within { IfSome result (λ n. n < length self.now) }
    {
        self.waiters
            .as_slice()
            .iter()
            .position(|waiter| waiter.0 == reference)
    }

    /// Removes the thread that has waited longest for an object, if there is one.
    fn notify_oldest(&mut self, reference: u32)
        ensures { self.new ≡ remove_entry (λ q. q == reference) self.old }
    {
        if let Some(place) = self.oldest(reference) {
            self.waiters.remove(place);
        }
    }

    /// Removes all threads that wait for an object.
    fn notify_all(&mut self, reference: u32)
        ensures { self.new ≡ filter (λ w. not (w.0 == reference)) self.old }
    {
        self.waiters.retain(|waiter| waiter.0 != reference);
    }

    /// Notifies the thread that has waited longest for an object, or all that wait for it. Removes the notified threads
    /// from the list. If none waits, nothing changes. Takes no memory.
    pub fn notify(&mut self, reference: u32, all: bool)
        ensures { self.new ≡ without_notified reference all self.old }
    {
        if all {
            self.notify_all(reference);
        } else {
            self.notify_oldest(reference);
        }
    }
}
