//! The actions of calls and returns, applied to a machine (JVMS 2.6.1, 2.6.4).

ghost use Rattle.std.specs.Prelude.{◌≡◌, ◌<◌, ◌≤◌, ◌++◌, [], drop, length, IsOk, IfOk, IfSome, OnOk, OnErr, slice_get};
ghost use Rattle.jvms_machine.specs.declared.action.Action.TheVariants as action;
ghost use Rattle.jvms_machine.specs.Calls.{frame_of_call};
ghost use Rattle.jvms_machine.specs.Monitors.{locked_reference};
ghost use Rattle.jvms_machine.specs.Actions.{arguments_of, enter_items, first_arguments, items_of, lock_items, without_top, top_operands, with_changed, with_lock, with_result};
ghost use Rattle.jvms_machine.specs.Turn.{CanBeLocked, IsReady};
ghost use Rattle.machine_parts.specs.Machine.{with_state, after};
ghost use Rattle.machine_parts.specs.Ready.{HasCaller};
ghost use Rattle.machine_parts.specs.machine_thread.Tops.{gives, with_first_call_made, with_call};
ghost use Rattle.trace.specs.Recording.{with_items};

use frames::Frame;
use jvms_machine::action::{Lock, MonitorUse};
use jvms_machine::machine::ThreadId;
use jvms_machine::value::Value;
use jvms_program::number::MethodNumber;
use jvms_program::program::Body;
use machine_parts::Parts;
use std::alloc::AllocError;
use trace::Recording;

/// Returns the object whose monitor a call holds with its frame.
#[inline(always)]
fn locked_reference(lock: Lock) -> Option<u32>
    ensures { result ≡ locked_reference lock }
{
    match lock {
        Lock::Nothing => None,
        Lock::Monitor(monitor) => Some(monitor.reference),
        Lock::NewClass { reference, .. } => Some(reference),
    }
}

/// Pushes the frame of a call on a thread. If there is no memory, nothing changes.
#[inline(always)]
fn push_call<'p>(parts: &mut Parts<'p>, t: ThreadId, frame: Frame<'p>) -> Result<(), AllocError>
    requires { t < length parts.old.state.threads }
    ensures ok { OnOk result
        (parts.new ≡ with_state parts.old
        (with_changed parts.old.state t (with_call frame.entry))) }
    ensures err { OnErr result (parts.new ≡ parts.old) }
{
    parts.threads[t as usize].push_call(frame)
}

/// Removes the top frame of a thread.
fn pop_call(parts: &mut Parts, t: ThreadId)
    ensures { parts.new ≡ with_state parts.old (with_changed parts.old.state t without_top) }
{
    if let Some(thread) = parts.threads.get_mut(t as usize) {
        thread.pop();
    }
}

/// Records that a thread has made its first call.
fn note_first_call(parts: &mut Parts, t: ThreadId)
    ensures { parts.new ≡ with_state parts.old
        (with_changed parts.old.state t with_first_call_made) }
{
    if let Some(thread) = parts.threads.get_mut(t as usize) {
        thread.set_first_call_made();
    }
}

/// Removes the topmost `takes` operands of the frame below a thread's top, which pass to the call on top.
#[inline(always)]
fn give_operands(parts: &mut Parts, t: ThreadId, takes: u16)
    requires { IfSome (slice_get parts.old.state.threads t)
        (λ x. takes ≤ length (top_operands (drop 1 x.frames))) }
    ensures { parts.new ≡ with_state parts.old (with_changed parts.old.state t (gives takes)) }
{
    if let Some(thread) = parts.threads.get_mut(t as usize) {
        thread.give(usize::from(takes));
    }
}

/// Enters the monitor that a call locks, and appends the items of the call, at most two. If there is no memory, nothing
/// changes.
#[inline(always)]
#[tactic(auto, using(trace::proofs::Recorded::cut_recorded))]
fn lock_marked(
    parts: &mut Parts,
    t: ThreadId,
    method: MethodNumber,
    lock: Lock,
    trace: &mut Recording,
) -> Result<(), AllocError>
    requires { CanBeLocked parts.old.state lock }
    ensures state { OnOk result
        (parts.new ≡ with_state parts.old (with_lock parts.old.program parts.old.state t lock)) }
    ensures items { OnOk result (trace.new
        ≡ with_items trace.old (enter_items parts.old.program t method ++ lock_items t lock)) }
    ensures kept { OnErr result (parts.new ≡ parts.old) }
    ensures no_items { OnErr result (trace.new ≡ trace.old) }
{
    let before = trace.len();
    parts.record_entry(t, method, lock, trace)?;
    if let Err(error) = parts.lock(t, lock) {
        trace.truncate(before);
        return Err(error);
    }
    Ok(())
}

/// Returns the frame of a thread's first call.
fn first_frame<'p>(
    parts: &Parts<'p>,
    t: ThreadId,
    method: MethodNumber,
    code: &'p Body,
    lock: Lock,
) -> Result<Frame<'p>, AllocError>
    requires { IsReady parts.now.start parts.now.state t (action.Enters method code.now lock) }
    ensures { IfOk result (λ frame. IfSome (slice_get parts.now.state.threads t)
        (λ thread. frame ≡ frame_of_call method code.now (locked_reference lock)
        (first_arguments parts.now.start thread))) }
{
    let monitor = locked_reference(lock);
    match parts.threads[t as usize].object() {
        None => Frame::new(
            parts.alloc,
            method,
            code,
            monitor,
            parts.arguments.as_slice(),
        ),
        Some(object) => {
            Frame::new(
                parts.alloc,
                method,
                code,
                monitor,
                &[Value::Reference(object)],
            )
        }
    }
}

/// Applies the first call of a thread to this method and its code. If there is no memory, nothing changes.
#[tactic(auto, using(crate::proofs::Entering::call_undone, crate::proofs::Entering::still_can_be_locked, crate::proofs::Entering::first_is_made), unfolding(jvms_machine::specs::Actions::applied_to, jvms_machine::specs::Actions::items_of))]
pub fn enter<'p>(
    parts: &mut Parts<'p>,
    t: ThreadId,
    method: MethodNumber,
    code: &'p Body,
    lock: Lock,
    trace: &mut Recording,
) -> Result<(), AllocError>
    requires { IsReady parts.old.start parts.old.state t (action.Enters method code.now lock) }
    ensures state { OnOk result
        (parts.new ≡ after parts.old t (action.Enters method code.now lock)) }
    ensures items { OnOk result (trace.new
        ≡ with_items trace.old
        (items_of parts.old.program t (action.Enters method code.now lock))) }
    ensures kept { OnErr result (parts.new ≡ parts.old) }
    ensures no_items { OnErr result (trace.new ≡ trace.old) }
{
    let frame = first_frame(parts, t, method, code, lock)?;
    push_call(parts, t, frame)?;
    if let Err(error) = lock_marked(parts, t, method, lock, trace) {
        pop_call(parts, t);
        return Err(error);
    }
    note_first_call(parts, t);
    Ok(())
}

/// Pushes the frame of a call that takes `takes` operands of the top call. If there is no memory, nothing changes.
#[inline(always)]
fn push_called<'p>(
    parts: &mut Parts<'p>,
    t: ThreadId,
    method: MethodNumber,
    code: &'p Body,
    takes: u16,
    lock: Lock,
) -> Result<(), AllocError>
    requires { IsReady parts.old.start parts.old.state t (action.Calls method code.now takes lock) }
    ensures ok { OnOk result (parts.new
        ≡ with_state parts.old
        (with_changed parts.old.state t
        (with_call (frame_of_call method code.now (locked_reference lock)
        (arguments_of takes (slice_get parts.old.state.threads t)))))) }
    ensures err { OnErr result (parts.new ≡ parts.old) }
{
    let alloc = parts.alloc;
    let monitor = locked_reference(lock);
    parts.threads[t as usize].call(alloc, method, code, monitor, usize::from(takes))
}

/// Calls a method with this code and the topmost `takes` operands of the top call. If there is no memory, nothing
/// changes.
#[tactic(auto, using(crate::proofs::Entering::call_undone, crate::proofs::Entering::still_can_be_locked, crate::proofs::Entering::can_give, crate::proofs::Entering::call_is_made), unfolding(jvms_machine::specs::Actions::applied_to, jvms_machine::specs::Actions::items_of))]
#[inline(always)]
pub fn call<'p>(
    parts: &mut Parts<'p>,
    t: ThreadId,
    method: MethodNumber,
    code: &'p Body,
    takes: u16,
    lock: Lock,
    trace: &mut Recording,
) -> Result<(), AllocError>
    requires { IsReady parts.old.start parts.old.state t (action.Calls method code.now takes lock) }
    ensures state { OnOk result
        (parts.new ≡ after parts.old t (action.Calls method code.now takes lock)) }
    ensures items { OnOk result (trace.new ≡ with_items trace.old
        (items_of parts.old.program t (action.Calls method code.now takes lock))) }
    ensures kept { OnErr result (parts.new ≡ parts.old) }
    ensures no_items { OnErr result (trace.new ≡ trace.old) }
{
    push_called(parts, t, method, code, takes, lock)?;
    if let Err(error) = lock_marked(parts, t, method, lock, trace) {
        pop_call(parts, t);
        return Err(error);
    }
    give_operands(parts, t, takes);
    Ok(())
}

/// Returns from the top call, which is of this method, to the frame below. If there is no memory, nothing changes.
#[tactic(auto, unfolding(jvms_machine::specs::Actions::applied_to, jvms_machine::specs::Actions::items_of))]
#[inline(always)]
pub fn return_below(
    parts: &mut Parts,
    t: ThreadId,
    method: MethodNumber,
    value: Option<Value>,
    unlock: Option<MonitorUse>,
    trace: &mut Recording,
) -> Result<(), AllocError>
    requires ready { IsReady parts.old.start parts.old.state t
        (action.Returns method value unlock) }
    requires caller { HasCaller parts.old.state t (action.Returns method value unlock) }
    ensures state { OnOk result
        (parts.new ≡ after parts.old t (action.Returns method value unlock)) }
    ensures items { OnOk result (trace.new
        ≡ with_items trace.old
        (items_of parts.old.program t (action.Returns method value unlock))) }
    ensures kept { OnErr result (parts.new ≡ parts.old) }
    ensures no_items { OnErr result (trace.new ≡ trace.old) }
    ensures none { items_of parts.old.program t (action.Returns method value unlock) ≡ []
        → IsOk result }
{
    parts.record_exit(t, method, unlock, trace)?;
    parts.unlock(unlock);
    parts.threads[t as usize].return_below(value);
    Ok(())
}

/// Records the result of the entry's method, which is that of thread 0.
fn set_result(parts: &mut Parts, t: ThreadId, value: Option<Value>)
    ensures { parts.new ≡ with_state parts.old (with_result parts.old.state t value) }
{
    if t == 0 {
        parts.result = value;
    }
}

/// Ends a thread whose first call, of this method, returns. If there is no memory, nothing changes.
#[tactic(auto, unfolding(jvms_machine::specs::Actions::applied_to, jvms_machine::specs::Actions::items_of))]
pub fn end(
    parts: &mut Parts,
    t: ThreadId,
    method: MethodNumber,
    value: Option<Value>,
    unlock: Option<MonitorUse>,
    trace: &mut Recording,
) -> Result<(), AllocError>
    ensures state { OnOk result (parts.new ≡ after parts.old t (action.Ends method value unlock)) }
    ensures items { OnOk result (trace.new
        ≡ with_items trace.old (items_of parts.old.program t (action.Ends method value unlock))) }
    ensures kept { OnErr result (parts.new ≡ parts.old) }
    ensures no_items { OnErr result (trace.new ≡ trace.old) }
    ensures none { items_of parts.old.program t (action.Ends method value unlock) ≡ []
        → IsOk result }
{
    parts.record_exit(t, method, unlock, trace)?;
    parts.unlock(unlock);
    if let Some(thread) = parts.threads.get_mut(t as usize) {
        thread.end();
    }
    set_result(parts, t, value);
    Ok(())
}
