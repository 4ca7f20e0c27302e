//! The objects of a machine.

ghost use Rattle.std.specs.Prelude.{◌≡◌, ◌<◌, ◌^◌, ℕ, IfSome, List, Some, length, option_copied, slice_get};
ghost use Rattle.std.specs.Option.{option_map};
ghost use Rattle.jvms_program.specs.declared.key.FieldKey.{FieldKey};
ghost use Rattle.jvms_machine.specs.declared.value.Value.{Value};
ghost use Rattle.jvms_machine.specs.State.{instance, instance_fields, keys, object_at, text_reference, class_reference};
ghost use Rattle.jvms_machine.specs.Heap.{array_of_type, with_element, with_object};
ghost use Rattle.heap.specs.Objects.{IfThere, IsNumberOf, Loads, Stores, Suits, class_at, object_part, instance_class, array_class, length_of, element_of, units_of, named_by, value_in, with_slot};
ghost use Rattle.heap.specs.Stored.{name_at, object_of, IsKept};

use crate::object_class::ObjectClass;
use crate::primitive_arrays::PrimitiveArrays;
use crate::stored_object::StoredObject;
use jvms_file::insn::{ArrayKind, ArrayType};
use jvms_machine::value::Value;
use jvms_program::number::ClassNumber;
use program::Program;
use shared_data::shared::Text;
use std::alloc::Global;
use std::marker::Model;
use text_index::Index;

/// The objects of a program's machine. Contracts see the objects themselves.
#[derive(Drop)]
pub struct Heap<'p> {
    pub(crate) alloc: Global,
    pub(crate) program: &'p Program,
    pub(crate) objects: Vec<StoredObject>,
    /// The number of elements of all arrays.
    pub(crate) elements: u32,
    /// The references of strings.
    pub(crate) texts: Index,
    /// The references of class objects.
    pub(crate) class_objects: Index,
    pub(crate) primitive_arrays: PrimitiveArrays,
}

impl<'p> Model for Heap<'p> {
    ghost use Rattle.std.specs.Prelude.{map};
    ghost use Rattle.heap.specs.Objects.{Heap as Seen};
    ghost use Rattle.heap.specs.Stored.{object_of, AreStored};

    ghost Value = { Seen };

    ghost view = { λ h. record {
      program = h.program.now;
      objects = map (object_of h.program.now) h.objects.items;
      elements = h.elements;
    } };

    ghost invariant = { λ h. AreStored h.program.now h.objects.items h.texts h.class_objects };
}

/// Returns the object at a place.
fn object_at_place(objects: &[StoredObject], place: usize) -> Option<&StoredObject>
    ensures { option_copied result ≡ slice_get objects.now place }
{
    objects.get(place)
}

impl<'p> Heap<'p> {
    /// Returns the program of the objects' classes.
    pub fn program(&self) -> &'p Program
        ensures { result.now ≡ self.now.program }
    {
        self.program
    }

    /// States that each instance has the fields of its class. It does nothing at run time.
    pub fn instances_have_their_fields(&self)
        ensures { (r : ℕ) (class : List ℕ) (fields : List (FieldKey × Value))
            → object_at self.now.objects r ≡ Some (instance class fields)
            → keys fields ≡ keys (instance_fields self.now.program class) }
    {
        let _ = &self.objects;
    }

    /// Returns the number of objects.
    #[tactic(auto, using(crate::proofs::StoredLaws::as_many_shown))]
    pub fn count(&self) -> usize
        ensures { result ≡ length self.now.objects }
    {
        self.objects.len()
    }

    /// Returns the number of elements of all arrays together.
    pub fn elements(&self) -> u32
        ensures { result ≡ self.now.elements }
    {
        self.elements
    }

    /// Returns the object of a reference.
    #[inline(always)]
    #[tactic(auto, using(crate::proofs::StoredLaws::shown_of, crate::proofs::StoredLaws::kept_of))]
    pub(crate) fn object(&self, reference: u32) -> Option<&StoredObject>
        ensures shown { option_map (λ o. object_of self.now.program o.now) result
            ≡ object_at self.now.objects reference }
        ensures kept { IfSome result (λ o. IsKept self.now.program o.now) }
    {
        if reference == 0 {
            return None;
        }
        object_at_place(self.objects.as_slice(), reference as usize - 1)
    }

    /// Returns the class of the object of a reference.
    #[inline(always)]
    pub fn class_of(&self, reference: u32) -> Option<&[u16]>
        ensures { option_map (λ c. c.now) result ≡ class_at self.now.objects reference }
    {
        let object = self.object(reference)?;
        Some(object.class_name(self.program))
    }

    /// Returns the class of the object of a reference, with its number if the object is an instance.
    pub fn object_class(&self, reference: u32) -> Option<ObjectClass<'_>>
        ensures name { option_map (λ c. c.name.now) result ≡ class_at self.now.objects reference }
        ensures number { IfSome result
            (λ c. IsNumberOf self.now.program c.number c.name.now) }
    {
        let object = self.object(reference)?;
        Some(ObjectClass {
            name: object.class_name(self.program),
            number: object.instance_class(),
        })
    }

    /// Returns the number of the class of an instance.
    pub fn instance_class(&self, reference: u32) -> Option<ClassNumber>
        ensures { option_map (name_at self.now.program) result
            ≡ object_part instance_class self.now.objects reference }
    {
        self.object(reference)?.instance_class()
    }

    /// Returns the class of an array.
    pub fn array_class(&self, reference: u32) -> Option<&Text>
        ensures { option_map (λ c. c.now) result
            ≡ object_part array_class self.now.objects reference }
    {
        self.object(reference)?.array_class()
    }

    /// Returns the number of elements of an array.
    #[inline(always)]
    pub fn array_length(&self, reference: u32) -> Option<usize>
        ensures count { result ≡ object_part length_of self.now.objects reference }
        // A length is an int.
        ensures few { IfSome result (λ length. length < 2 ^ 31) }
    {
        self.object(reference)?.length()
    }

    /// Returns an element of an array.
    #[inline(always)]
    pub fn element(&self, reference: u32, index: usize) -> Option<Value>
        ensures { result ≡ object_part (element_of index) self.now.objects reference }
    {
        self.object(reference)?.element(index)
    }

    /// Returns an element of an array, if an instruction of this kind serves the array.
    #[inline(always)]
    pub fn loaded(&self, reference: u32, kind: ArrayKind, index: usize) -> Option<Value>
        ensures { IfSome result
            (λ v. IfThere (Loads kind index v) (object_at self.now.objects reference)) }
    {
        match self.object(reference) {
            None => None,
            Some(object) => object.loaded(kind, index),
        }
    }

    /// Returns the value that is stored for an int or a long in an array, if an instruction of this kind serves the
    /// array.
    #[inline(always)]
    pub fn stored(
        &self,
        reference: u32,
        kind: ArrayKind,
        index: usize,
        value: Value,
    ) -> Option<Value>
        ensures { IfSome result (λ kept. IfThere (Stores kind index value kept)
            (object_at self.now.objects reference)) }
    {
        match self.object(reference) {
            None => None,
            Some(object) => object.stored(kind, index, value),
        }
    }

    /// Returns the value of an instance's field, by its slot.
    #[inline(always)]
    pub fn field(&self, reference: u32, slot: usize) -> Option<Value>
        ensures { result ≡ object_part (value_in slot) self.now.objects reference }
    {
        self.object(reference)?.value(slot)
    }

    /// Returns the units of a string.
    pub fn units_of(&self, reference: u32) -> Option<&Text>
        ensures { option_map (λ units. units.now) result
            ≡ object_part units_of self.now.objects reference }
    {
        self.object(reference)?.units()
    }

    /// Returns the name of the class of a class object.
    pub fn name_of(&self, reference: u32) -> Option<&Text>
        ensures { option_map (λ name. name.now) result
            ≡ object_part named_by self.now.objects reference }
    {
        self.object(reference)?.name()
    }

    /// Returns the reference of a text's string.
    #[tactic(auto, using(crate::proofs::StoredLaws::text_found))]
    pub fn text_reference(&self, units: &[u16]) -> Option<u32>
        ensures { result ≡ text_reference self.now.objects units.now }
    {
        self.texts.find(units)
    }

    /// Returns the reference of the class object of the class of a name.
    #[tactic(auto, using(crate::proofs::StoredLaws::class_found))]
    pub fn class_reference(&self, name: &[u16]) -> Option<u32>
        ensures { result ≡ class_reference self.now.objects name.now }
    {
        self.class_objects.find(name)
    }

    /// Returns the class of an array of a primitive type.
    pub fn primitive_array_class(&self, array_type: ArrayType) -> &Text
        ensures { result.now ≡ array_of_type array_type }
    {
        self.primitive_arrays.get(array_type)
    }

    /// Stores a value in the field of a slot, if the reference is that of an instance with such a slot.
    pub fn put_field(&mut self, reference: u32, slot: usize, value: Value)
        ensures { self.new ≡ record self.old {
          objects = with_object self.old.objects reference
              (with_slot slot value) (object_at self.old.objects reference);
        } }
    {
        if reference == 0 {
            return;
        }
        let place = reference as usize - 1;
        if place < self.objects.len() {
            self.objects[place].put_value(slot, value);
        }
    }

    /// Stores a value at an index, if the reference is that of an array with an element there.
    #[inline(always)]
    pub fn put_element(&mut self, reference: u32, index: usize, value: Value)
        requires { IfSome (object_at self.old.objects reference) (Suits value) }
        ensures { self.new ≡ record self.old {
          objects = with_object self.old.objects reference
              (with_element index value) (object_at self.old.objects reference);
        } }
    {
        if reference == 0 {
            return;
        }
        let place = reference as usize - 1;
        if place < self.objects.len() {
            self.objects[place].put_element(index, value);
        }
    }
}
