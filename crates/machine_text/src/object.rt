//! Objects with their contents, as the debugger writes them.

ghost use Rattle.std.specs.Prelude.{◌≡◌, ◌++◌, IfOk, OnOk, length, map, slice_get};
ghost use Rattle.std.specs.List.{enumerate_from, flat_map};
ghost use Rattle.std.specs.String.{string_bytes};
ghost use Rattle.jvms_machine.specs.State.{instance, array, text, class_object};
ghost use Rattle.jvms_machine.specs.State.{monitor_at, object_at};
ghost use Rattle.jvms_machine.specs.Waiting.{waiters_of};
ghost use Rattle.machine_text.specs.Objects.{element_line, hold_line, object_lines, waiter_text, waiting_line};
ghost use Rattle.machine_text.specs.Objects.{object_text};
ghost use Rattle.machine_text.specs.Parts.{Shows, elements_at, fields_at, fields_text, if_there};

use crate::chain::classes_from_top;
use crate::fields::{Keeper, put_fields};
use crate::value::put_value;
use escapes::{put_counted, put_name};
use jvms_machine::laws::the_keys_of_an_instance_are_those_of_its_class;
use jvms_machine::machine::ThreadId;
use jvms_program::program::Class;
use machine::Machine;
use std::alloc::{AllocError, Global};

/// An object, with what its lines show.
#[derive(Clone, Copy)]
enum ObjectView<'m> {
    /// An object of a class.
    Instance(&'m [u16]),
    /// An array of a class, with this number of elements.
    Array(&'m [u16], usize),
    /// A string.
    Text(&'m [u16]),
    /// The object of the class of this name.
    ClassObject(&'m [u16]),
}

/// Returns the view of the object of a reference.
fn view_of<'m>(machine: &'m Machine, reference: u32) -> Option<ObjectView<'m>>
    ensures { Shows result (object_at machine.entry.now.state.heap reference) }
{
    let class = machine.class_of(reference)?;
    if let Some(units) = machine.text(reference) {
        return Some(ObjectView::Text(units));
    }
    if let Some(name) = machine.class_object(reference) {
        return Some(ObjectView::ClassObject(name));
    }
    match machine.array_length(reference) {
        Some(count) => Some(ObjectView::Array(class, count)),
        None => Some(ObjectView::Instance(class)),
    }
}

/// Appends the line of an array's element. Appends nothing if the index is beyond the array's end.
fn put_element(
    out: &mut String,
    machine: &Machine,
    reference: u32,
    index: usize,
) -> Result<(), AllocError>
    ensures { OnOk result (string_bytes out.new ≡ string_bytes out.old
        ++ if_there (λ v. element_line (index, v))
        (slice_get (elements_at machine.now reference) index)) }
{
    let Some(value) = machine.element(reference, index) else {
        return Ok(());
    };
    put_counted(out, "[", index as u64)?;
    out.push_str("] = ")?;
    put_value(out, value)?;
    out.push_str("\n")
}

/// Appends the lines of an array's elements.
fn put_elements(
    out: &mut String,
    machine: &Machine,
    reference: u32,
    count: usize,
) -> Result<(), AllocError>
    requires { count ≡ length (elements_at machine.now reference) }
    ensures { OnOk result (string_bytes out.new ≡ string_bytes out.old
        ++ flat_map element_line (enumerate_from 0 (elements_at machine.now reference))) }
{
    for index in 0..count {
        put_element(out, machine, reference, index)?;
    }
    Ok(())
}

/// Appends an array: its class, its length, and its elements.
fn put_array(
    out: &mut String,
    machine: &Machine,
    reference: u32,
    class: &[u16],
    count: usize,
) -> Result<(), AllocError>
    requires { count ≡ length (elements_at machine.now reference) }
    ensures { OnOk result (string_bytes out.new ≡ string_bytes out.old
        ++ object_lines (array class.now (elements_at machine.now reference))) }
{
    put_name(out, class)?;
    put_counted(out, " ", count as u64)?;
    out.push_str("\n")?;
    put_elements(out, machine, reference, count)
}

/// Appends the lines of an instance's fields that these classes declare.
fn put_declared(
    out: &mut String,
    machine: &Machine,
    reference: u32,
    classes: &[&Class],
) -> Result<(), AllocError>
    ensures { OnOk result (string_bytes out.new ≡ string_bytes out.old
        ++ flat_map (fields_text machine.now (Keeper.Instance reference))
        (map (λ c. c.now) classes.now)) }
{
    for class in classes {
        put_fields(out, machine, Keeper::Instance(reference), *class)?;
    }
    Ok(())
}

/// Appends an instance: its class and its fields.
fn put_instance(
    alloc: Global,
    out: &mut String,
    machine: &Machine,
    reference: u32,
    class: &[u16],
) -> Result<(), AllocError>
    requires { Shows (Some (ObjectView.Instance class))
        (object_at machine.now.state.heap reference) }
    ensures { OnOk result (string_bytes out.new ≡ string_bytes out.old
        ++ object_lines (instance class.now (fields_at machine.now reference))) }
{
    machine.state_is_sound();
    the_keys_of_an_instance_are_those_of_its_class();
    let classes = classes_from_top(alloc, machine.program(), class)?;
    put_name(out, class)?;
    out.push_str("\n")?;
    put_declared(out, machine, reference, classes.as_slice())
}

/// Appends a string: `text "S"`.
fn put_text(out: &mut String, units: &[u16]) -> Result<(), AllocError>
    ensures { OnOk result (string_bytes out.new ≡ string_bytes out.old
        ++ object_lines (text units.now)) }
{
    out.push_str("text \"")?;
    put_name(out, units)?;
    out.push_str("\"\n")
}

/// Appends the object of a class: `class C`.
fn put_class_object(out: &mut String, name: &[u16]) -> Result<(), AllocError>
    ensures { OnOk result (string_bytes out.new ≡ string_bytes out.old
        ++ object_lines (class_object name.now)) }
{
    out.push_str("class ")?;
    put_name(out, name)?;
    out.push_str("\n")
}

/// Appends the object of a reference.
fn put_object(
    alloc: Global,
    out: &mut String,
    machine: &Machine,
    reference: u32,
    view: ObjectView,
) -> Result<(), AllocError>
    requires { Shows (Some view) (object_at machine.now.state.heap reference) }
    ensures { OnOk result (string_bytes out.new ≡ string_bytes out.old
        ++ if_there object_lines (object_at machine.now.state.heap reference)) }
{
    match view {
        ObjectView::Instance(class) => put_instance(alloc, out, machine, reference, class),
        ObjectView::Array(class, count) => put_array(out, machine, reference, class, count),
        ObjectView::Text(units) => put_text(out, units),
        ObjectView::ClassObject(name) => put_class_object(out, name),
    }
}

/// Appends the owner of a monitor and its entry count. Appends nothing if the monitor is free.
fn put_hold(out: &mut String, machine: &Machine, reference: u32) -> Result<(), AllocError>
    ensures { OnOk result (string_bytes out.new ≡ string_bytes out.old
        ++ hold_line (monitor_at machine.now.state.monitors reference)) }
{
    let Some(hold) = machine.monitor(reference) else {
        return Ok(());
    };
    put_counted(out, "owned by ", u64::from(hold.owner))?;
    put_counted(out, " count ", u64::from(hold.count))?;
    out.push_str("\n")
}

/// Appends the numbers of threads.
fn put_waiters(out: &mut String, threads: &[ThreadId]) -> Result<(), AllocError>
    ensures { OnOk result (string_bytes out.new ≡ string_bytes out.old
        ++ flat_map waiter_text threads.now) }
{
    for thread in threads {
        put_counted(out, " ", u64::from(*thread))?;
    }
    Ok(())
}

/// Appends the threads that wait for an object. Appends nothing if none waits.
fn put_waiting(
    alloc: Global,
    out: &mut String,
    machine: &Machine,
    reference: u32,
) -> Result<(), AllocError>
    ensures { OnOk result (string_bytes out.new ≡ string_bytes out.old
        ++ waiting_line (waiters_of reference machine.now.state.waiters)) }
{
    let threads = machine.waiters(alloc, reference)?;
    if threads.is_empty() {
        return Ok(());
    }
    out.push_str("waiting")?;
    put_waiters(out, threads.as_slice())?;
    out.push_str("\n")
}

/// Appends the lines of the object of a reference.
fn put_lines(
    alloc: Global,
    out: &mut String,
    machine: &Machine,
    reference: u32,
    view: ObjectView,
) -> Result<(), AllocError>
    requires { Shows (Some view) (object_at machine.now.state.heap reference) }
    ensures { OnOk result (string_bytes out.new ≡ string_bytes out.old
        ++ object_text machine.now reference) }
{
    put_counted(out, "R:", u64::from(reference))?;
    out.push_str(" ")?;
    put_object(alloc, out, machine, reference, view)?;
    put_hold(out, machine, reference)?;
    put_waiting(alloc, out, machine, reference)
}

/// Returns the lines of the object of a reference, or an empty text if there is none.
pub fn object_text(alloc: Global, machine: &Machine, reference: u32) -> Result<String, AllocError>
    ensures { IfOk result (λ s. string_bytes s ≡ object_text machine.now reference) }
{
    let mut text = String::new(alloc);
    if let Some(view) = view_of(machine, reference) {
        put_lines(alloc, &mut text, machine, reference, view)?;
    }
    Ok(text)
}
