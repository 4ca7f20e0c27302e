//! Raising an exception in a machine (JVMS 2.10).

ghost use Rattle.std.specs.Prelude.{◌≡◌, IsOk, IsTrue, IfOk, OnOk, OnErr};
ghost use Rattle.jvms_machine.specs.declared.action.Action.TheVariants as action;
ghost use Rattle.jvms_machine.specs.Exceptions.{exception_reference};
ghost use Rattle.jvms_machine.specs.Actions.{with_exception};
ghost use Rattle.machine_parts.specs.Decided.{is_existing};
ghost use Rattle.machine_parts.specs.Machine.{with_state, after};
ghost use Rattle.machine_parts.specs.Ready.{HasReference};

use crate::exceptions::thrown_number;
use crate::parts::Parts;
use jvms_machine::action::Exception;
use jvms_machine::machine::ThreadId;
use std::alloc::AllocError;

impl Parts<'_> {
    /// Creates the object of an exception unless it exists, and returns its reference. If there is no memory, nothing
    /// changes.
    #[tactic(auto, using(crate::proofs::HeapLaws::of_its_name))]
    pub fn throw(&mut self, exception: Exception) -> Result<u32, AllocError>
        requires { HasReference self.old.state }
        ensures reference { IfOk result (λ r. r ≡ exception_reference self.old.state exception) }
        ensures state { OnOk result (self.new
            ≡ with_state self.old (with_exception self.old.program self.old.state exception)) }
        ensures kept { OnErr result (self.new ≡ self.old) }
        ensures none { IsTrue (is_existing exception) → IsOk result }
    {
        match exception {
            Exception::Existing { reference } => Ok(reference),
            Exception::New(class) => {
                let reference = self.heap.count() as u32 + 1;
                let number = thrown_number(self.program(), class);
                self.heap.new_instance(number)?;
                Ok(reference)
            }
        }
    }

    /// Makes an exception pending in a thread. If there is no memory, nothing changes.
    #[tactic(auto, unfolding(jvms_machine::specs::Actions::applied_to))]
    pub fn raise(&mut self, t: ThreadId, exception: Exception) -> Result<(), AllocError>
        requires { HasReference self.old.state }
        ensures state { OnOk result (self.new ≡ after self.old t (action.Raises exception)) }
        ensures kept { OnErr result (self.new ≡ self.old) }
        ensures none { IsTrue (is_existing exception) → IsOk result }
    {
        let reference = self.throw(exception)?;
        if let Some(thread) = self.threads.get_mut(t as usize) {
            thread.raise(reference);
        }
        Ok(())
    }

    /// Ends a thread whose first call throws an exception. If there is no memory, nothing changes.
    #[tactic(auto, unfolding(jvms_machine::specs::Actions::applied_to))]
    pub fn fail(&mut self, t: ThreadId, exception: Exception) -> Result<(), AllocError>
        requires { HasReference self.old.state }
        ensures state { OnOk result (self.new ≡ after self.old t (action.Fails exception)) }
        ensures kept { OnErr result (self.new ≡ self.old) }
        ensures none { IsTrue (is_existing exception) → IsOk result }
    {
        let reference = self.throw(exception)?;
        if let Some(thread) = self.threads.get_mut(t as usize) {
            thread.fail(reference);
        }
        Ok(())
    }
}
