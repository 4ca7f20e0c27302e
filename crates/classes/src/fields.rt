//! Resolution of fields (JVMS 5.4.3.2).

ghost use Rattle.std.specs.Prelude.{◌≡◌};
ghost use Rattle.jvms_program.specs.Resolution.{reference_field, resolved_field};
ghost use Rattle.classes.specs.Places.{IsFieldAt, LocatesItem, Resolves};

use crate::ancestors::first_in_ancestry;
use crate::exists::class_exists;
use crate::list::Classes;
use crate::look::DeclaredField;
use crate::lookup::{field_at, field_number_at};
use crate::names::members_class;
use jvms_program::number::FieldNumber;
use jvms_program::program::FieldReference;
use jvms_program::thrown::Thrown;

/// Finds the field that a reference names.
fn reference_field(program: &Classes, r: &FieldReference) -> Option<FieldNumber>
    ensures { LocatesItem (IsFieldAt program.now) (reference_field program.now r.now) result }
{
    let name = r.name.as_slice();
    let descriptor = r.descriptor.as_slice();
    if !program.may_declare_field(name, descriptor) {
        return None;
    }
    let look = DeclaredField { name, descriptor };
    field_number_at(first_in_ancestry(program, members_class(r.class.as_slice()), &look))
}

impl Classes {
    /// Resolves a field reference (JVMS 5.4.3.2) to its number. Returns the exception that resolution throws if
    /// there is no such field.
    pub fn resolve_field(&self, is_static: bool, r: &FieldReference) -> Result<FieldNumber, Thrown>
        ensures { Resolves (IsFieldAt self.now) (resolved_field self.now is_static r.now) result }
    {
        if !class_exists(self, r.class.as_slice()) {
            return Err(Thrown::NoClassDefFoundError);
        }
        let Some(n) = reference_field(self, r) else {
            return Err(Thrown::NoSuchFieldError);
        };
        match field_at(self, n) {
            Some(field) if field.is_static == is_static => Ok(n),
            _ => Err(Thrown::IncompatibleClassChangeError),
        }
    }
}
