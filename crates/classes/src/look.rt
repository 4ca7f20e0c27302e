//! The matches that a search looks for in one class.

ghost use Rattle.std.specs.Prelude.{◌≡◌, ℕ, List, Option, Some, None, if◌then◌else◌};
ghost use Rattle.jvms_program.specs.declared.program.Class.{Class};
ghost use Rattle.jvms_file.specs.Names.{same_text};
ghost use Rattle.classes.specs.Places.{field_in, method_in, selectable_in};

use crate::lookup::{declared_field_number, declared_number};
use crate::walk::Look;
use descriptor::same_text;
use jvms_program::program::Class;

/// A method of this name and descriptor.
#[derive(Clone, Copy)]
pub(crate) struct DeclaredMethod<'a> {
    pub(crate) name: &'a [u16],
    pub(crate) descriptor: &'a [u16],
}

impl Look for DeclaredMethod<'_> {
    ghost gives = { λ s class c. method_in class s.name.now s.descriptor.now c };

    fn look(&self, number: usize, class: &Class) -> Option<(usize, usize)> {
        let member = declared_number(class, self.name, self.descriptor)?;
        Some((number, member))
    }
}

/// A method of this name and descriptor that is neither static nor private.
#[derive(Clone, Copy)]
pub(crate) struct Selectable<'a> {
    pub(crate) name: &'a [u16],
    pub(crate) descriptor: &'a [u16],
}

impl Look for Selectable<'_> {
    ghost gives = { λ s class c. selectable_in class s.name.now s.descriptor.now c };

    fn look(&self, number: usize, class: &Class) -> Option<(usize, usize)> {
        let member = declared_number(class, self.name, self.descriptor)?;
        let method = class.methods.as_slice().get(member)?;
        if method.flags.is_static || method.flags.is_private {
            return None;
        }
        Some((number, member))
    }
}

/// A field of this name and descriptor.
#[derive(Clone, Copy)]
pub(crate) struct DeclaredField<'a> {
    pub(crate) name: &'a [u16],
    pub(crate) descriptor: &'a [u16],
}

impl Look for DeclaredField<'_> {
    ghost gives = { λ s class c. field_in class s.name.now s.descriptor.now c };

    fn look(&self, number: usize, class: &Class) -> Option<(usize, usize)> {
        let member = declared_field_number(class, self.name, self.descriptor)?;
        Some((number, member))
    }
}

/// A class of this name. The match is no member, so its numbers mean nothing.
#[derive(Clone, Copy)]
pub(crate) struct ClassNamed<'a> {
    pub(crate) name: &'a [u16],
}

impl Look for ClassNamed<'_> {
    ghost gives = { λ s class c. if same_text c.name s.name.now then Some (0, 0) else None };

    fn look(&self, _number: usize, class: &Class) -> Option<(usize, usize)> {
        if same_text(class.name.as_slice(), self.name) {
            Some((0, 0))
        } else {
            None
        }
    }
}
