//! Entering and leaving monitors (JVMS 2.11.10).

ghost use Rattle.std.specs.Prelude.{◌≡◌, [], IsOk, IfOk, OnOk, OnErr};
ghost use Rattle.jvms_machine.specs.declared.action.Effect.TheVariants as effects;
ghost use Rattle.jvms_machine.specs.declared.action.Lock.TheVariants as locks;
ghost use Rattle.jvms_machine.specs.Actions.{acquire_items, after_effect, effect_items, lock_items, release_items, unlock_items, with_lock, with_unlock};
ghost use Rattle.jvms_machine.specs.Turn.{CanBeEntered, CanBeLocked};
ghost use Rattle.jvms_machine.specs.Heap.{class_name_at};
ghost use Rattle.machine_parts.specs.Machine.{with_state};
ghost use Rattle.machine_parts.specs.Marks.{item_list};
ghost use Rattle.trace.specs.Recording.{with_items};

use crate::marks::push_listed;
use crate::parts::Parts;
use jvms_machine::action::{Lock, MonitorUse};
use jvms_machine::machine::ThreadId;
use jvms_machine::trace::Item;
use jvms_program::number::ClassNumber;
use shared_data::items::Items;
use shared_data::shared::{Shared, Text};
use std::alloc::AllocError;
use trace::Recording;

/// Returns the item of entering a monitor. Only the outermost entry has one.
pub fn acquire_item(thread: ThreadId, monitor: MonitorUse) -> Option<Item>
    ensures { item_list result ≡ acquire_items thread monitor }
{
    if !monitor.outermost {
        return None;
    }
    let reference = monitor.reference;
    Some(Item::Acquire { thread, reference })
}

/// Returns the item of leaving a monitor. Only the exit that frees the monitor has one.
pub fn release_item(thread: ThreadId, monitor: MonitorUse) -> Option<Item>
    ensures { item_list result ≡ release_items thread monitor }
{
    if !monitor.outermost {
        return None;
    }
    let reference = monitor.reference;
    Some(Item::Release { thread, reference })
}

/// Returns the item of what a call locks.
pub(crate) fn lock_item(thread: ThreadId, lock: Lock) -> Option<Item>
    ensures { item_list result ≡ lock_items thread lock }
{
    match lock {
        Lock::Nothing => None,
        Lock::Monitor(monitor) => acquire_item(thread, monitor),
        Lock::NewClass { reference, .. } => Some(Item::Acquire { thread, reference }),
    }
}

/// Returns the item of what a call unlocks.
pub(crate) fn unlock_item(thread: ThreadId, unlock: Option<MonitorUse>) -> Option<Item>
    ensures { item_list result ≡ unlock_items thread unlock }
{
    release_item(thread, unlock?)
}

impl Parts<'_> {
    /// Returns the name of the class of a number, or an empty text if there is no such class.
    fn class_name(&self, class: ClassNumber) -> Result<Text, AllocError>
        ensures { IfOk result (λ name. name ≡ class_name_at self.now.program class) }
    {
        match self.program().class(class) {
            None => Shared::new(self.alloc, Items::new(self.alloc)),
            Some(c) => c.name.share(),
        }
    }

    /// Creates the object of a class, and enters its monitor, which is free. If there is no memory, nothing changes.
    #[tactic(auto, using(crate::proofs::MonitorLaws::entry_undone))]
    fn lock_new_class(
        &mut self,
        t: ThreadId,
        class: ClassNumber,
        reference: u32,
    ) -> Result<(), AllocError>
        requires { CanBeLocked self.old.state (locks.NewClass class reference) }
        ensures ok { OnOk result (self.new ≡ with_state self.old
            (with_lock self.old.program self.old.state t (locks.NewClass class reference))) }
        ensures err { OnErr result (self.new ≡ self.old) }
    {
        let name = self.class_name(class)?;
        self.monitors.enter(reference, t)?;
        if let Err(error) = self.heap.new_class_object(&name) {
            self.monitors.leave(reference);
            return Err(error);
        }
        Ok(())
    }

    /// Enters the monitor that a call locks. If there is no memory, nothing changes.
    #[inline(always)]
    pub fn lock(&mut self, t: ThreadId, lock: Lock) -> Result<(), AllocError>
        requires { CanBeLocked self.old.state lock }
        ensures ok { OnOk result
            (self.new ≡ with_state self.old (with_lock self.old.program self.old.state t lock)) }
        ensures err { OnErr result (self.new ≡ self.old) }
    {
        match lock {
            Lock::Nothing => Ok(()),
            Lock::Monitor(monitor) => self.monitors.enter(monitor.reference, t),
            Lock::NewClass { class, reference } => self.lock_new_class(t, class, reference),
        }
    }

    /// Leaves the monitor that a call unlocks, if there is one.
    pub fn unlock(&mut self, unlock: Option<MonitorUse>)
        ensures { self.new ≡ with_state self.old (with_unlock self.old.state unlock) }
    {
        if let Some(monitor) = unlock {
            self.monitors.leave(monitor.reference);
        }
    }

    /// Applies JVMS 6.5 `monitorenter`, and records its item. If there is no memory, nothing changes.
    #[tactic(auto, using(trace::proofs::Recorded::cut_recorded))]
    pub fn enter_monitor(
        &mut self,
        t: ThreadId,
        monitor: MonitorUse,
        trace: &mut Recording,
    ) -> Result<(), AllocError>
        requires { CanBeEntered self.old.state monitor }
        ensures state { OnOk result (self.new ≡ with_state self.old
            (after_effect self.old.program self.old.state t [] (effects.Locks monitor))) }
        ensures items { OnOk result (trace.new
            ≡ with_items trace.old (effect_items self.old.program t (effects.Locks monitor))) }
        ensures kept { OnErr result (self.new ≡ self.old) }
        ensures no_items { OnErr result (trace.new ≡ trace.old) }
        ensures none { effect_items self.old.program t (effects.Locks monitor) ≡ [] → IsOk result }
    {
        let before = trace.len();
        push_listed(trace, acquire_item(t, monitor))?;
        if let Err(error) = self.monitors.enter(monitor.reference, t) {
            trace.truncate(before);
            return Err(error);
        }
        Ok(())
    }

    /// Applies JVMS 6.5 `monitorexit`, and records its item. If there is no memory, nothing changes.
    pub fn exit_monitor(
        &mut self,
        t: ThreadId,
        monitor: MonitorUse,
        trace: &mut Recording,
    ) -> Result<(), AllocError>
        ensures state { OnOk result (self.new ≡ with_state self.old
            (after_effect self.old.program self.old.state t [] (effects.Unlocks monitor))) }
        ensures items { OnOk result (trace.new
            ≡ with_items trace.old (effect_items self.old.program t (effects.Unlocks monitor))) }
        ensures kept { OnErr result (self.new ≡ self.old) }
        ensures no_items { OnErr result (trace.new ≡ trace.old) }
        ensures none { effect_items self.old.program t (effects.Unlocks monitor) ≡ []
            → IsOk result }
    {
        push_listed(trace, release_item(t, monitor))?;
        self.monitors.leave(monitor.reference);
        Ok(())
    }
}
