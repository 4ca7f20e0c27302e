//! The table of held monitors, by the reference of their object.

ghost use Rattle.std.specs.Prelude.{◌≡◌, ℕ, ◌+◌, ◌^◌, ◌<◌, [], length, IsTrue, ◌↔◌, IfOk, IsSome, IfSome, IsOk, OnOk, OnErr};
ghost use Rattle.jvms_machine.specs.Monitors.{entered_monitor, left_monitor};
ghost use Rattle.jvms_machine.specs.Waiting.{freed_monitor, retaken_monitor};
ghost use Rattle.jvms_machine.specs.State.{monitor_at};

use jvms_machine::machine::ThreadId;
use jvms_machine::state::{Hold, Wait};
use std::alloc::{AllocError, Global};
use std::collections::BTreeMap;
use std::marker::Model;

/// The held monitors. Contracts see a list of pairs of a reference and its hold, in the order of the references.
#[derive(Drop)]
pub struct Monitors {
    holds: BTreeMap<u32, Hold>,
}

impl Model for Monitors {
    ghost use Rattle.std.specs.Prelude.{ℕ, List};
    ghost use Rattle.jvms_machine.specs.declared.state.Hold.{Hold};

    ghost Value = { List (ℕ × Hold) };

    ghost view = { λ m. m.holds.entries };
}

impl Monitors {
    /// Returns a table in which no monitor is held. Takes no memory.
    pub fn new(alloc: Global) -> Self
        ensures { result ≡ [] }
    {
        Monitors {
            holds: BTreeMap::new(alloc),
        }
    }

    /// Returns a copy of the table.
    pub fn copy(&self) -> Result<Monitors, AllocError>
        ensures { IfOk result (λ m. m ≡ self.now) }
    {
        Ok(Monitors {
            holds: self.holds.clone()?,
        })
    }

    /// Returns the number of held monitors.
    pub fn len(&self) -> usize
        ensures { result ≡ length self.now }
    {
        self.holds.len()
    }

    /// Decides whether no monitor is held.
    pub fn is_empty(&self) -> bool
        ensures { IsTrue result ↔ (self.now ≡ []) }
    {
        self.holds.is_empty()
    }

    /// Returns the owner and the entry count of an object's monitor, or `None` if it isn't held.
    pub fn hold(&self, reference: u32) -> Option<Hold>
        ensures { result ≡ monitor_at self.now reference }
    {
        self.holds.get(&reference).copied()
    }

    /// Enters the monitor of an object for a thread (JVMS 6.5 `monitorenter`). If the monitor is held, adds one to the
    /// entry count of its owner, whichever thread is named. Only a monitor that isn't held takes memory. If there is
    /// none, nothing changes.
    pub fn enter(&mut self, reference: u32, thread: ThreadId) -> Result<(), AllocError>
        requires { IfSome (monitor_at self.old reference) (λ h. h.count + 1 < 2 ^ 32) }
        ensures ok { OnOk result (self.new ≡ entered_monitor thread reference self.old) }
        ensures err { OnErr result (self.new ≡ self.old) }
        ensures again { IsSome (monitor_at self.old reference) → IsOk result }
    {
        let hold = match self.hold(reference) {
            None => Hold {
                owner: thread,
                count: 1,
            },
            Some(hold) => Hold {
                owner: hold.owner,
                count: hold.count + 1,
            },
        };
        self.holds.insert(reference, hold)?;
        Ok(())
    }

    /// Leaves the monitor of an object once, for its owner (JVMS 6.5 `monitorexit`). If no thread holds it, nothing
    /// changes. Takes no memory.
    pub fn leave(&mut self, reference: u32)
        ensures { self.new ≡ left_monitor reference self.old }
    {
        let Some(hold) = self.holds.get_mut(&reference) else {
            return;
        };
        if hold.count == 1 {
            self.holds.remove(&reference);
        } else {
            hold.count = hold.count.saturating_sub(1);
        }
    }

    /// Frees the monitor of an object, whatever its entry count. Takes no memory.
    pub fn free(&mut self, reference: u32)
        ensures { self.new ≡ freed_monitor reference self.old }
    {
        self.holds.remove(&reference);
    }

    /// Gives the monitor of an object back to a thread that has waited, with the entry count from before the wait. If
    /// there is no memory, nothing changes.
    pub fn retake(&mut self, thread: ThreadId, wait: Wait) -> Result<(), AllocError>
        ensures ok { OnOk result (self.new ≡ retaken_monitor thread wait self.old) }
        ensures err { OnErr result (self.new ≡ self.old) }
    {
        let hold = Hold {
            owner: thread,
            count: wait.count,
        };
        self.holds.insert(wait.reference, hold)?;
        Ok(())
    }
}
