//! The actions of class initialisation, applied to a machine (JVMS 5.5).

ghost use Rattle.std.specs.Prelude.{◌≡◌, ◌+◌, ◌<◌, ◌^◌, OnOk, OnErr, length, map};
ghost use Rattle.jvms_machine.specs.declared.action.Action.TheVariants as action;
ghost use Rattle.jvms_machine.specs.Actions.{with_initialisation_frame, thread_with_initializer, items_of, with_changed, with_initialisation, with_texts};
ghost use Rattle.jvms_machine.specs.State.{text};
ghost use Rattle.jvms_machine.specs.Turn.{IsReady};
ghost use Rattle.machine_parts.specs.heap.Objects.{with_new};
ghost use Rattle.machine_parts.specs.Marks.{item_list};
ghost use Rattle.machine_parts.specs.Ready.{HasTextsToMake};
ghost use Rattle.machine_parts.specs.Machine.{with_state, after};
ghost use Rattle.trace.specs.Recording.{with_items};

use frames::Frame;
use jvms_machine::machine::ThreadId;
use jvms_machine::state::Initialisation;
use jvms_machine::trace::Item;
use jvms_program::number::{ClassNumber, MethodNumber};
use jvms_program::program::Body;
use machine_parts::heap::Heap;
use machine_parts::machine_thread::Thread;
use machine_parts::{Parts, push_listed};
use shared_data::shared::Text;
use std::alloc::AllocError;
use trace::Recording;

/// Pushes the frame of an initialisation on a thread, and creates strings. If there is no memory, nothing changes.
fn begin_with_texts(
    thread: &mut Thread<'_>,
    class: ClassNumber,
    heap: &mut Heap<'_>,
    texts: &[Text],
) -> Result<(), AllocError>
    requires { length heap.old.objects + length texts.now < 2 ^ 32 }
    ensures thread { OnOk result (thread.new ≡ with_initialisation_frame class thread.old) }
    ensures heap { OnOk result (heap.new ≡ with_new (map text texts.now) heap.old) }
    ensures thread_kept { OnErr result (thread.new ≡ thread.old) }
    ensures heap_kept { OnErr result (heap.new ≡ heap.old) }
{
    thread.begin(class)?;
    if let Err(error) = heap.new_texts(texts) {
        thread.pop();
        return Err(error);
    }
    Ok(())
}

/// Sets the state of the initialisation of a class.
pub fn mark(parts: &mut Parts, class: ClassNumber, how: Initialisation)
    ensures { parts.new ≡ with_state parts.old (with_initialisation parts.old.state class how) }
{
    if let Some(slot) = parts.initialisations.get_mut(class) {
        *slot = how;
    }
}

/// Creates the strings of the constants of a class that begins its initialisation, and pushes its frame. If there is no
/// memory, nothing changes.
fn begin_frame(
    parts: &mut Parts,
    t: ThreadId,
    class: ClassNumber,
    texts: &[Text],
) -> Result<(), AllocError>
    requires { length parts.old.state.heap + length texts.now < 2 ^ 32 }
    ensures ok { OnOk result (parts.new ≡ with_state parts.old
        (with_changed (with_texts parts.old.state texts.now) t (with_initialisation_frame class))) }
    ensures err { OnErr result (parts.new ≡ parts.old) }
{
    match parts.threads.get_mut(t as usize) {
        None => parts.heap.new_texts(texts),
        Some(thread) => begin_with_texts(thread, class, &mut parts.heap, texts),
    }
}

/// Begins the initialisation of a class, and stores its constants. If there is no memory, nothing changes.
#[tactic(auto, unfolding(jvms_machine::specs::Actions::applied_to))]
pub fn begin(parts: &mut Parts, t: ThreadId, class: ClassNumber) -> Result<(), AllocError>
    requires { HasTextsToMake parts.old class }
    ensures ok { OnOk result (parts.new ≡ after parts.old t (action.Begins class)) }
    ensures err { OnErr result (parts.new ≡ parts.old) }
{
    let texts = parts.texts_to_make(class)?;
    begin_frame(parts, t, class, texts.as_slice())?;
    if let Some(c) = parts.program().class(class) {
        parts.store_constants(class, c);
    }
    mark(parts, class, Initialisation::InProgress { thread: t });
    Ok(())
}

/// Finishes the initialisation of a class, and removes its frame.
#[tactic(auto, unfolding(jvms_machine::specs::Actions::applied_to))]
pub fn finish(parts: &mut Parts, t: ThreadId, class: ClassNumber)
    ensures { parts.new ≡ after parts.old t (action.Finishes class) }
{
    if let Some(thread) = parts.threads.get_mut(t as usize) {
        thread.pop();
    }
    mark(parts, class, Initialisation::Done);
}

/// Pushes the call of a `<clinit>`, and records its mark. If there is no memory, nothing changes.
fn call_initializer<'p>(
    thread: &mut Thread<'p>,
    frame: Frame<'p>,
    item: Option<Item>,
    trace: &mut Recording,
) -> Result<(), AllocError>
    ensures state { OnOk result (thread.new ≡ thread_with_initializer frame.entry thread.old) }
    ensures items { OnOk result (trace.new ≡ with_items trace.old (item_list item)) }
    ensures kept { OnErr result (thread.new ≡ thread.old) }
    ensures no_items { OnErr result (trace.new ≡ trace.old) }
{
    thread.push_call(frame)?;
    if let Err(error) = push_listed(trace, item) {
        thread.pop();
        return Err(error);
    }
    thread.set_initializer_called();
    Ok(())
}

/// Calls the `<clinit>` of the class whose initialisation is on top. If there is no memory, nothing changes.
#[tactic(auto, unfolding(jvms_machine::specs::Actions::applied_to, jvms_machine::specs::Actions::items_of))]
pub fn initialise<'p>(
    parts: &mut Parts<'p>,
    t: ThreadId,
    method: MethodNumber,
    code: &'p Body,
    trace: &mut Recording,
) -> Result<(), AllocError>
    requires { IsReady parts.old.start parts.old.state t (action.Initialises method code.now) }
    ensures state { OnOk result
        (parts.new ≡ after parts.old t (action.Initialises method code.now)) }
    ensures items { OnOk result (trace.new
        ≡ with_items trace.old
        (items_of parts.old.program t (action.Initialises method code.now))) }
    ensures kept { OnErr result (parts.new ≡ parts.old) }
    ensures no_items { OnErr result (trace.new ≡ trace.old) }
{
    let frame = Frame::new(parts.alloc, method, code, None, &[])?;
    let item = parts.enter_item(t, method)?;
    call_initializer(&mut parts.threads[t as usize], frame, item, trace)?;
    Ok(())
}
