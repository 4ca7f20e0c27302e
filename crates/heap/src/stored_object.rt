//! One object.

ghost use Rattle.std.specs.Prelude.{◌≡◌, ◌<◌, ◌^◌, true, IfOk, IfSome, List, slice_get};
ghost use Rattle.std.specs.Option.{option_map};
ghost use Rattle.jvms_program.specs.declared.program.Class.{Class};
ghost use Rattle.jvms_machine.specs.State.{class_of};
ghost use Rattle.jvms_machine.specs.Heap.{with_element};
ghost use Rattle.heap.specs.Objects.{Loads, Stores, array_class, instance_class, length_of, element_of, units_of, named_by, value_in, with_slot};
ghost use Rattle.heap.specs.Stored.{name_at, object_of, AreAlike, IsKept, AcceptsStored, Becomes};

use array_elements::Elements;
use jvms_file::insn::ArrayKind;
use jvms_machine::value::Value;
use jvms_program::number::ClassNumber;
use program::Program;
use shared_data::shared::Text;
use std::alloc::{AllocError, Global};

/// `java/lang/String`, the class of a string.
const STRING: [u16; 16] = [
    106, 97, 118, 97, 47, 108, 97, 110, 103, 47, 83, 116, 114, 105, 110, 103,
];

/// `java/lang/Class`, the class of a class object.
const CLASS: [u16; 15] = [
    106, 97, 118, 97, 47, 108, 97, 110, 103, 47, 67, 108, 97, 115, 115,
];

/// An object.
#[derive(Debug, Drop)]
pub enum StoredObject {
    /// An instance of the class of a number, with the values of its fields by their slots.
    Instance {
        class: ClassNumber,
        values: Vec<Value>,
    },
    /// An array of a class.
    Array {
        class: Text,
        elements: Elements,
    },
    /// A string.
    Text(Text),
    /// The object of the class of this name.
    ClassObject(Text),
}

/// Returns the value at a place.
pub(crate) fn value_at(values: &[Value], place: usize) -> Option<Value>
    ensures { result ≡ slice_get values.now place }
{
    Some(*values.get(place)?)
}

impl StoredObject {
    /// Copies the object.
    pub(crate) fn copy(&self, alloc: Global) -> Result<StoredObject, AllocError>
        ensures shown { (program : List Class)
            → IfOk result (λ o. object_of program o ≡ object_of program self.now) }
        ensures kept { (program : List Class) → IsKept program self.now
            → IfOk result (IsKept program) }
    {
        match self {
            StoredObject::Instance { class, values } => Ok(StoredObject::Instance {
                class: *class,
                values: Vec::from_slice(alloc, values.as_slice())?,
            }),
            StoredObject::Array { class, elements } => Ok(StoredObject::Array {
                class: class.share()?,
                elements: elements.copy(alloc)?,
            }),
            StoredObject::Text(units) => Ok(StoredObject::Text(units.share()?)),
            StoredObject::ClassObject(name) => Ok(StoredObject::ClassObject(name.share()?)),
        }
    }

    /// Returns true only if the other object is the same, in every program.
    pub(crate) fn is_same(&self, other: &StoredObject) -> bool
        ensures { result ≡ true → AreAlike self.now other.now }
    {
        match (self, other) {
            (
                StoredObject::Instance { class, values },
                StoredObject::Instance {
                    class: other_class,
                    values: other_values,
                },
            ) => class == other_class && values == other_values,
            (
                StoredObject::Array { class, elements },
                StoredObject::Array {
                    class: other_class,
                    elements: other_elements,
                },
            ) => class == other_class && elements.is_same(other_elements),
            (StoredObject::Text(units), StoredObject::Text(others)) => units == others,
            (StoredObject::ClassObject(name), StoredObject::ClassObject(others)) => name == others,
            _ => false,
        }
    }

    /// Returns the name of the object's class.
    #[inline(always)]
    pub(crate) fn class_name<'a>(&'a self, program: &'a Program) -> &'a [u16]
        ensures { result.now ≡ class_of (object_of program.now self.now) }
    {
        match self {
            StoredObject::Instance { class, .. } => match program.class(*class) {
                Some(class) => class.name.as_slice(),
                None => &[],
            },
            StoredObject::Array { class, .. } => class.as_slice(),
            StoredObject::Text(_) => &STRING,
            StoredObject::ClassObject(_) => &CLASS,
        }
    }

    /// Returns the class of an array.
    pub(crate) fn array_class(&self) -> Option<&Text>
        ensures { (program : List Class)
            → option_map (λ c. c.now) result ≡ array_class (object_of program self.now) }
    {
        match self {
            StoredObject::Array { class, .. } => Some(class),
            _ => None,
        }
    }

    /// Returns the number of elements of an array.
    #[inline(always)]
    pub(crate) fn length(&self) -> Option<usize>
        ensures count { (program : List Class) → result ≡ length_of (object_of program self.now) }
        ensures few { (program : List Class) → IsKept program self.now
            → IfSome result (λ length. length < 2 ^ 31) }
    {
        match self {
            StoredObject::Array { elements, .. } => Some(elements.len()),
            _ => None,
        }
    }

    /// Returns an element of an array.
    #[inline(always)]
    pub(crate) fn element(&self, index: usize) -> Option<Value>
        ensures { (program : List Class) → result ≡ element_of index (object_of program self.now) }
    {
        match self {
            StoredObject::Array { elements, .. } => elements.get(index),
            _ => None,
        }
    }

    /// Returns an element of an array, if an instruction of this kind serves the array.
    #[inline(always)]
    pub(crate) fn loaded(&self, kind: ArrayKind, index: usize) -> Option<Value>
        ensures { (program : List Class) → IsKept program self.now
            → IfSome result (λ v. Loads kind index v (object_of program self.now)) }
    {
        match self {
            StoredObject::Array { elements, .. } => elements.loaded(kind, index),
            _ => None,
        }
    }

    /// Returns the value that is stored for an int or a long in an array, if an instruction of this kind serves the
    /// array.
    #[inline(always)]
    pub(crate) fn stored(&self, kind: ArrayKind, index: usize, value: Value) -> Option<Value>
        ensures { (program : List Class) → IsKept program self.now
            → IfSome result (λ kept. Stores kind index value kept (object_of program self.now)) }
    {
        match self {
            StoredObject::Array { elements, .. } => elements.stored(kind, index, value),
            _ => None,
        }
    }

    /// Returns the units of a string.
    pub(crate) fn units(&self) -> Option<&Text>
        ensures { (program : List Class)
            → option_map (λ units. units.now) result ≡ units_of (object_of program self.now) }
    {
        match self {
            StoredObject::Text(units) => Some(units),
            _ => None,
        }
    }

    /// Returns the name of the class of a class object.
    pub(crate) fn name(&self) -> Option<&Text>
        ensures { (program : List Class)
            → option_map (λ name. name.now) result ≡ named_by (object_of program self.now) }
    {
        match self {
            StoredObject::ClassObject(name) => Some(name),
            _ => None,
        }
    }

    /// Returns the value of the field of a slot.
    pub(crate) fn value(&self, slot: usize) -> Option<Value>
        ensures { (program : List Class) → IsKept program self.now
            → result ≡ value_in slot (object_of program self.now) }
    {
        match self {
            StoredObject::Instance { values, .. } => value_at(values.as_slice(), slot),
            _ => None,
        }
    }

    /// Returns the number of the class of an instance.
    pub(crate) fn instance_class(&self) -> Option<ClassNumber>
        ensures { (program : List Class)
            → option_map (name_at program) result ≡ instance_class (object_of program self.now) }
    {
        match self {
            StoredObject::Instance { class, .. } => Some(*class),
            _ => None,
        }
    }

    /// Stores a value in the field of a slot, if it is an instance with such a slot.
    #[tactic(auto, using(crate::proofs::SlotLaws::slot_put, crate::proofs::SlotLaws::no_slot_put))]
    pub(crate) fn put_value(&mut self, slot: usize, value: Value)
        ensures { (program : List Class) → IsKept program self.old
            → Becomes (with_slot slot value) program self.old self.new }
    {
        if let StoredObject::Instance { values, .. } = self {
            if slot < values.len() {
                values[slot] = value;
            }
        }
    }

    /// Stores a value at an index, if it is an array with an element there.
    #[inline(always)]
    pub(crate) fn put_element(&mut self, index: usize, value: Value)
        requires { AcceptsStored value self.old }
        ensures { (program : List Class) → IsKept program self.old
            → Becomes (with_element index value) program self.old self.new }
    {
        if let StoredObject::Array { elements, .. } = self {
            elements.put(index, value);
        }
    }
}
