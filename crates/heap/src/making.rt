//! Creates objects.

ghost use Rattle.std.specs.Prelude.{◌≡◌, ◌+◌, ◌<◌, ◌^◌, ◌∷◌, [], OnOk, OnErr, length, replicate};
ghost use Rattle.jvms_machine.specs.State.{array, text, class_object, first_instance};
ghost use Rattle.jvms_machine.specs.Heap.{first_element};
ghost use Rattle.heap.specs.Objects.{with_new, with_arrays};
ghost use Rattle.heap.specs.Stored.{name_at, object_of, IsKept, IsPlain};

use crate::first_values::first_values;
use crate::heap::Heap;
use crate::stored_object::StoredObject;
use array_elements::{Elements, kind_of_array};
use jvms_program::number::ClassNumber;
use program::Program;
use shared_data::shared::Text;
use std::alloc::AllocError;

/// Returns the name of the class of a number.
pub(crate) fn name_at(program: &Program, class: ClassNumber) -> &[u16]
    ensures { result.now ≡ name_at program.now class }
{
    match program.class(class) {
        Some(class) => class.name.as_slice(),
        None => &[],
    }
}

impl Heap<'_> {
    /// Appends an instance or an array. Without memory nothing changes.
    fn push_plain(&mut self, plain: StoredObject) -> Result<(), AllocError>
        requires kept { IsKept self.old.program plain }
        requires plain { IsPlain plain }
        ensures ok { OnOk result
            (self.new ≡ with_new (object_of self.old.program plain ∷ []) self.old) }
        ensures err { OnErr result (self.new ≡ self.old) }
    {
        self.objects.push(plain)?;
        Ok(())
    }

    /// Creates an instance of the class of a number. Without memory nothing changes.
    pub fn new_instance(&mut self, class: ClassNumber) -> Result<(), AllocError>
        ensures ok { OnOk result (self.new ≡ with_new
            (first_instance self.old.program (name_at self.old.program class) ∷ []) self.old) }
        ensures err { OnErr result (self.new ≡ self.old) }
    {
        let program = self.program();
        let values = first_values(self.alloc, program, class)?;
        self.push_plain(StoredObject::Instance { class, values })
    }

    /// Creates an array of a class. Without memory nothing changes.
    pub fn new_array(&mut self, class: &Text, length: u32) -> Result<(), AllocError>
        requires { self.old.elements + length < 2 ^ 31 }
        ensures ok { OnOk result (self.new ≡ with_arrays
            (array class.now (replicate length (first_element class.now)) ∷ []) length self.old) }
        ensures err { OnErr result (self.new ≡ self.old) }
    {
        let kind = kind_of_array(class.as_slice());
        let elements = Elements::new(self.alloc, kind, length)?;
        let class = class.share()?;
        self.push_plain(StoredObject::Array { class, elements })?;
        self.elements += length;
        Ok(())
    }

    /// Creates a string. If its text has one already, look-ups keep finding that one. Without memory nothing changes.
    pub fn new_text(&mut self, units: &Text) -> Result<(), AllocError>
        requires { length self.old.objects + 1 < 2 ^ 32 }
        ensures ok { OnOk result (self.new ≡ with_new (text units.now ∷ []) self.old) }
        ensures err { OnErr result (self.new ≡ self.old) }
    {
        let reference = self.objects.as_slice().len() as u32 + 1;
        let object = StoredObject::Text(units.share()?);
        self.objects.push(object)?;
        match self.texts.put(self.alloc, units.as_slice(), reference) {
            Ok(()) => Ok(()),
            Err(error) => {
                self.objects.pop();
                Err(error)
            }
        }
    }

    /// Creates the class object of the class of a name. If the class has one already, look-ups keep finding that one.
    /// Without memory nothing changes.
    pub fn new_class_object(&mut self, name: &Text) -> Result<(), AllocError>
        requires { length self.old.objects + 1 < 2 ^ 32 }
        ensures ok { OnOk result (self.new ≡ with_new (class_object name.now ∷ []) self.old) }
        ensures err { OnErr result (self.new ≡ self.old) }
    {
        let reference = self.objects.as_slice().len() as u32 + 1;
        let object = StoredObject::ClassObject(name.share()?);
        self.objects.push(object)?;
        match self
            .class_objects
            .put(self.alloc, name.as_slice(), reference)
        {
            Ok(()) => Ok(()),
            Err(error) => {
                self.objects.pop();
                Err(error)
            }
        }
    }
}
