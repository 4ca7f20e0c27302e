//! The objects of a machine, by their references. A reference that was never created has no object.

ghost use Rattle.std.specs.Prelude.{◌≡◌, length, IfOk};
ghost use Rattle.std.specs.Option.{option_map};
ghost use Rattle.jvms_machine.specs.State.{monitor_at, text_reference, class_reference};
ghost use Rattle.jvms_machine.specs.Waiting.{waiters_of};
ghost use Rattle.exec_ref.specs.heap.Objects.{object_part, class_at, field_of, length_of, element_of, units_of, named_by};

use crate::machine::Machine;
use exec_ref::classes::FieldName;
use jvms_machine::machine::ThreadId;
use jvms_machine::state::Hold;
use jvms_machine::value::Value;
use std::alloc::{AllocError, Global};

impl Machine<'_> {
    /// Returns the number of references that were ever created.
    pub fn object_count(&self) -> usize
        ensures { result ≡ length self.now.state.heap }
    {
        self.parts.heap.count()
    }

    /// Returns the number of elements of all arrays that were ever created.
    pub fn element_count(&self) -> u32
        ensures { result ≡ self.now.state.elements }
    {
        self.parts.heap.elements()
    }

    /// Returns the class of the object of a reference.
    pub fn class_of(&self, reference: u32) -> Option<&[u16]>
        ensures { option_map (λ c. c.now) result ≡ class_at self.now.state.heap reference }
    {
        self.parts.heap.class_of(reference)
    }

    /// Returns the value of an instance's field, or `None` if the object is no instance or has no such field.
    pub fn field(&self, reference: u32, key: &FieldName) -> Option<Value>
        ensures { result ≡ object_part (field_of key.now) self.now.state.heap reference }
    {
        self.parts.heap.field_named(reference, key)
    }

    /// Returns the length of an array, or `None` if the object is no array.
    pub fn array_length(&self, reference: u32) -> Option<usize>
        ensures { result ≡ object_part length_of self.now.state.heap reference }
    {
        self.parts.heap.array_length(reference)
    }

    /// Returns the value of an array's element, or `None` if the object is no array or the index is beyond its end.
    pub fn element(&self, reference: u32, index: usize) -> Option<Value>
        ensures { result ≡ object_part (element_of index) self.now.state.heap reference }
    {
        self.parts.heap.element(reference, index)
    }

    /// Returns the UTF-16 code units of a string, or `None` if the object is no string.
    pub fn text(&self, reference: u32) -> Option<&[u16]>
        ensures { option_map (λ units. units.now) result
            ≡ object_part units_of self.now.state.heap reference }
    {
        let units = self.parts.heap.units_of(reference)?;
        Some(units.as_slice())
    }

    /// Returns the name of the class that a class object stands for, or `None` if the object is none.
    pub fn class_object(&self, reference: u32) -> Option<&[u16]>
        ensures { option_map (λ name. name.now) result
            ≡ object_part named_by self.now.state.heap reference }
    {
        let name = self.parts.heap.name_of(reference)?;
        Some(name.as_slice())
    }

    /// Returns the owner and the entry count of an object's monitor, or `None` if it is free or there is no object.
    pub fn monitor(&self, reference: u32) -> Option<Hold>
        ensures { result ≡ monitor_at self.now.state.monitors reference }
    {
        self.parts.monitor(reference)
    }

    /// Returns the threads that wait for an object and weren't notified, the longest wait first.
    pub fn waiters(&self, alloc: Global, reference: u32) -> Result<Vec<ThreadId>, AllocError>
        ensures { IfOk result
            (λ threads. threads.items ≡ waiters_of reference self.now.state.waiters) }
    {
        self.parts.waiters.of(alloc, reference)
    }

    /// Returns the reference of the string of a text, if one was created. Equal texts share one string.
    pub fn text_reference(&self, units: &[u16]) -> Option<u32>
        ensures { result ≡ text_reference self.now.state.heap units.now }
    {
        self.parts.heap.text_reference(units)
    }

    /// Returns the reference of the object of a named class, if one was created.
    pub fn class_reference(&self, name: &[u16]) -> Option<u32>
        ensures { result ≡ class_reference self.now.state.heap name.now }
    {
        self.parts.heap.class_reference(name)
    }
}
