//! Look-ups by name in a program (JVMS 5.4.3, 6.5).

ghost use Rattle.std.specs.Prelude.{◌≡◌};
ghost use Rattle.classes.specs.Places.{IsFieldAt, IsMethodAt, LocatesItem, Resolves};
ghost use Rattle.jvms_program.specs.Resolution.{ResolvedMethod, resolved_field, resolved_method, selected_from, selected_special};
ghost use Rattle.jvms_program.specs.Slots.{slot_of};

use crate::list::Program;
use classes::{FieldName, Slot};
use jvms_program::number::{FieldNumber, MethodNumber};
use jvms_program::program::{FieldReference, MethodReference};
use jvms_program::thrown::Thrown;

impl Program {
    /// Returns the slot of an instance field of a class, or `None` if the class's chain has no such field. The slots
    /// number the fields of the chain from 0: the topmost superclass's first, and each class's as it declares them.
    /// Allocates no memory.
    pub fn slot(&self, class: &[u16], field: &FieldName) -> Option<Slot>
        ensures { result ≡ slot_of self.now class.now field.now }
    {
        self.by_name.slot(class, field)
    }

    /// Resolves a field reference (JVMS 5.4.3.2) to its number. Returns the exception that resolution throws if
    /// there is no such field.
    pub fn resolve_field(&self, is_static: bool, r: &FieldReference) -> Result<FieldNumber, Thrown>
        ensures { Resolves (IsFieldAt self.now) (resolved_field self.now is_static r.now) result }
    {
        self.by_name.resolve_field(is_static, r)
    }

    /// Resolves a method reference (JVMS 5.4.3.3, 5.4.3.4) to its number. Returns the exception that resolution
    /// throws if there is no such method.
    pub fn resolve_method(
        &self,
        is_static: bool,
        r: &MethodReference,
    ) -> Result<MethodNumber, Thrown>
        ensures { Resolves (IsMethodAt self.now) (resolved_method self.now is_static r.now) result }
    {
        self.by_name.resolve_method(is_static, r)
    }

    /// Selects the method for a call of the method of a number, from the class of a name up its superclasses. A private
    /// method is itself selected.
    pub fn select_from(&self, class: &[u16], n: MethodNumber) -> Option<MethodNumber>
        ensures { (found : ResolvedMethod) → IsMethodAt self.now found n
            → LocatesItem (IsMethodAt self.now) (selected_from self.now class.now found) result }
    {
        self.by_name.select_from(class, n)
    }

    /// Selects the method for an invokespecial in the class `current` (JVMS 6.5 invokespecial). That is the one of the
    /// number if it is a constructor, or if its named class is no superclass of `current`. Else it is selected from the
    /// superclass of `current` on.
    pub fn select_special(
        &self,
        current: &[u16],
        r: &MethodReference,
        n: MethodNumber,
    ) -> Option<MethodNumber>
        ensures { (found : ResolvedMethod) → IsMethodAt self.now found n → LocatesItem
            (IsMethodAt self.now) (selected_special self.now current.now r.now found) result }
    {
        self.by_name.select_special(current, r, n)
    }
}
