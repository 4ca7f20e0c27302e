//! Waits and notifications of a machine (JLS 17.2).

ghost use Rattle.std.specs.Prelude.{◌≡◌, ◌∷◌, [], OnOk, OnErr};
ghost use Rattle.jvms_machine.specs.declared.action.Effect.TheVariants as effects;
ghost use Rattle.jvms_machine.specs.declared.trace.Item.TheVariants as item;
ghost use Rattle.jvms_machine.specs.Actions.{after_effect, with_retaken, with_waiter};
ghost use Rattle.machine_parts.specs.Machine.{with_state};
ghost use Rattle.trace.specs.Recording.{with_items};

use crate::parts::Parts;
use jvms_machine::machine::ThreadId;
use jvms_machine::state::Wait;
use jvms_machine::trace::Item;
use std::alloc::AllocError;
use trace::Recording;

impl Parts<'_> {
    /// Frees the monitor of an object, and appends the thread to the waiters of the object. Records the release. If
    /// there is no memory, nothing changes.
    #[tactic(auto, using(trace::proofs::Recorded::cut_recorded))]
    pub fn free_to_wait(
        &mut self,
        t: ThreadId,
        reference: u32,
        trace: &mut Recording,
    ) -> Result<(), AllocError>
        ensures state { OnOk result
            (self.new ≡ with_state self.old (with_waiter self.old.state t reference)) }
        ensures items { OnOk result
            (trace.new ≡ with_items trace.old (item.Release t reference ∷ [])) }
        ensures kept { OnErr result (self.new ≡ self.old) }
        ensures no_items { OnErr result (trace.new ≡ trace.old) }
    {
        let before = trace.len();
        let release = Item::Release {
            thread: t,
            reference,
        };
        trace.push(release)?;
        if let Err(error) = self.waiters.wait(reference, t) {
            trace.truncate(before);
            return Err(error);
        }
        self.monitors.free(reference);
        Ok(())
    }

    /// Gives a thread the monitor that it had freed for its wait, and records the acquire. If there is no memory,
    /// nothing changes.
    #[tactic(auto, using(trace::proofs::Recorded::cut_recorded))]
    pub fn retake_monitor(
        &mut self,
        t: ThreadId,
        wait: Wait,
        trace: &mut Recording,
    ) -> Result<(), AllocError>
        ensures state { OnOk result
            (self.new ≡ with_state self.old (with_retaken self.old.state t wait)) }
        ensures items { OnOk result
            (trace.new ≡ with_items trace.old (item.Acquire t wait.reference ∷ [])) }
        ensures kept { OnErr result (self.new ≡ self.old) }
        ensures no_items { OnErr result (trace.new ≡ trace.old) }
    {
        let before = trace.len();
        let acquire = Item::Acquire {
            thread: t,
            reference: wait.reference,
        };
        trace.push(acquire)?;
        if let Err(error) = self.monitors.retake(t, wait) {
            trace.truncate(before);
            return Err(error);
        }
        Ok(())
    }

    /// Notifies the thread that has waited longest for an object, or all that wait for it. Takes no memory.
    pub fn notify(&mut self, reference: u32, all: bool)
        ensures { self.new ≡ with_state self.old
            (after_effect self.old.program self.old.state 0 [] (effects.Notifies reference all)) }
    {
        self.waiters.notify(reference, all);
    }
}
