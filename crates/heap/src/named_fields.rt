//! The fields of instances, by their names.

ghost use Rattle.std.specs.Prelude.{◌≡◌};
ghost use Rattle.jvms_machine.specs.State.{object_at};
ghost use Rattle.jvms_machine.specs.Heap.{with_field, with_object};
ghost use Rattle.heap.specs.Objects.{object_part, field_of, slot_in};

use crate::heap::Heap;
use crate::making::name_at;
use jvms_machine::value::Value;
use program::classes::{FieldName, Slot};

impl Heap<'_> {
    /// Returns the slot of an instance's field.
    #[tactic(auto, using(crate::proofs::NamedLaws::no_slot_named, crate::proofs::NamedLaws::slot_named))]
    fn slot_named(&self, reference: u32, field: &FieldName) -> Option<Slot>
        ensures { result
            ≡ object_part (slot_in self.now.program field.now) self.now.objects reference }
    {
        let class = self.instance_class(reference)?;
        let program = self.program();
        program.slot(name_at(program, class), field)
    }

    /// Returns the value of an instance's field. Returns `None` if the reference is that of no instance, or of one that
    /// has no such field.
    #[tactic(auto, using(crate::proofs::NamedLaws::named_read, crate::proofs::NamedLaws::not_named))]
    pub fn field_named(&self, reference: u32, field: &FieldName) -> Option<Value>
        ensures { result ≡ object_part (field_of field.now) self.now.objects reference }
    {
        self.instances_have_their_fields();
        let slot = self.slot_named(reference, field)?;
        self.field(reference, slot)
    }

    /// Stores a value in the field of a key, if the instance has one.
    #[tactic(auto, using(crate::proofs::NamedLaws::named_put, crate::proofs::NamedLaws::none_named_put))]
    pub fn put_field_named(&mut self, reference: u32, field: &FieldName, value: Value)
        ensures { self.new ≡ record self.old {
          objects = with_object self.old.objects reference
              (with_field field.now value) (object_at self.old.objects reference);
        } }
    {
        self.instances_have_their_fields();
        if let Some(slot) = self.slot_named(reference, field) {
            self.put_field(reference, slot, value);
        }
    }
}
