//! The actions of exceptions, applied to a machine (JVMS 2.10).

ghost use Rattle.std.specs.Prelude.{◌≡◌, [], IsOk, IsTrue, OnOk, OnErr};
ghost use Rattle.jvms_machine.specs.declared.action.Action.TheVariants as action;
ghost use Rattle.jvms_machine.specs.Actions.{items_of};
ghost use Rattle.jvms_machine.specs.Turn.{IsReady};
ghost use Rattle.invoke.specs.machine_parts.Decided.{is_existing};
ghost use Rattle.invoke.specs.machine_parts.Machine.{after};
ghost use Rattle.invoke.specs.machine_parts.Ready.{HasReference};
ghost use Rattle.trace.specs.Recording.{with_items};

use invoke::machine_parts::{Parts, push_listed};
use invoke::mark;
use jvms_machine::action::{Exception, MonitorUse};
use jvms_machine::machine::ThreadId;
use jvms_machine::state::Initialisation;
use jvms_program::number::{ClassNumber, MethodNumber};
use std::alloc::AllocError;
use trace::Recording;

/// Removes the topmost operand and makes it the pending exception (JVMS 6.5 `athrow`).
#[tactic(auto, unfolding(jvms_machine::specs::Actions::applied_to))]
pub fn throw_object(parts: &mut Parts, t: ThreadId, reference: u32)
    requires { IsReady parts.old.start parts.old.state t (action.Throws reference) }
    ensures { parts.new ≡ after parts.old t (action.Throws reference) }
{
    if let Some(thread) = parts.threads.get_mut(t as usize) {
        thread.throw(reference);
    }
}

/// Enters a handler of the top call with the pending exception.
#[tactic(auto, unfolding(jvms_machine::specs::Actions::applied_to))]
pub fn catch(parts: &mut Parts, t: ThreadId, reference: u32, target: usize)
    requires { IsReady parts.old.start parts.old.state t (action.Catches reference target) }
    ensures { parts.new ≡ after parts.old t (action.Catches reference target) }
{
    if let Some(thread) = parts.threads.get_mut(t as usize) {
        thread.catch(reference, target);
    }
}

/// Pops the top call, of this method. If there is no memory, nothing changes.
#[tactic(auto, unfolding(jvms_machine::specs::Actions::applied_to, jvms_machine::specs::Actions::items_of))]
pub fn unwind(
    parts: &mut Parts,
    t: ThreadId,
    method: MethodNumber,
    last: bool,
    unlock: Option<MonitorUse>,
    trace: &mut Recording,
) -> Result<(), AllocError>
    ensures state { OnOk result
        (parts.new ≡ after parts.old t (action.Unwinds method last unlock)) }
    ensures items { OnOk result (trace.new
        ≡ with_items trace.old (items_of parts.old.program t (action.Unwinds method last unlock))) }
    ensures kept { OnErr result (parts.new ≡ parts.old) }
    ensures no_items { OnErr result (trace.new ≡ trace.old) }
    ensures none { items_of parts.old.program t (action.Unwinds method last unlock) ≡ []
        → IsOk result }
{
    parts.record_exit(t, method, unlock, trace)?;
    parts.unlock(unlock);
    if let Some(thread) = parts.threads.get_mut(t as usize) {
        thread.unwind(last);
    }
    Ok(())
}

/// Pops the top call, of this method, whose thread doesn't own its monitor. This exception is then pending. If there is
/// no memory, nothing changes.
#[tactic(auto, using(trace::proofs::Recorded::cut_recorded), unfolding(jvms_machine::specs::Actions::applied_to, jvms_machine::specs::Actions::items_of))]
pub fn fail_to_unlock(
    parts: &mut Parts,
    t: ThreadId,
    method: MethodNumber,
    exception: Exception,
    last: bool,
    trace: &mut Recording,
) -> Result<(), AllocError>
    requires { HasReference parts.old.state }
    ensures state { OnOk result
        (parts.new ≡ after parts.old t (action.FailsToUnlock method exception last)) }
    ensures items { OnOk result (trace.new ≡ with_items trace.old
        (items_of parts.old.program t (action.FailsToUnlock method exception last))) }
    ensures kept { OnErr result (parts.new ≡ parts.old) }
    ensures no_items { OnErr result (trace.new ≡ trace.old) }
    ensures none { IsTrue (is_existing exception)
        → items_of parts.old.program t (action.FailsToUnlock method exception last) ≡ []
        → IsOk result }
{
    let item = parts.exit_item(t, method)?;
    let before = trace.len();
    push_listed(trace, item)?;
    let reference = match parts.throw(exception) {
        Ok(reference) => reference,
        Err(error) => {
            trace.truncate(before);
            return Err(error);
        }
    };
    if let Some(thread) = parts.threads.get_mut(t as usize) {
        thread.raise(reference);
        thread.unwind(last);
    }
    Ok(())
}

/// Pops the initialisation of a class, which is on top, and marks the class as erroneous. If there is no memory,
/// nothing changes.
#[tactic(auto, unfolding(jvms_machine::specs::Actions::applied_to))]
pub fn fail_initialisation(
    parts: &mut Parts,
    t: ThreadId,
    class: ClassNumber,
    exception: Exception,
    last: bool,
) -> Result<(), AllocError>
    requires { HasReference parts.old.state }
    ensures state { OnOk result
        (parts.new ≡ after parts.old t (action.FailsInitialisation class exception last)) }
    ensures kept { OnErr result (parts.new ≡ parts.old) }
    ensures none { IsTrue (is_existing exception) → IsOk result }
{
    let reference = parts.throw(exception)?;
    if let Some(thread) = parts.threads.get_mut(t as usize) {
        thread.raise(reference);
        thread.unwind(last);
    }
    mark(parts, class, Initialisation::Erroneous);
    Ok(())
}
