//! Selection of methods (JVMS 6.5 invokevirtual, invokeinterface, invokespecial).

ghost use Rattle.std.specs.Prelude.{◌≡◌};
ghost use Rattle.jvms_program.specs.Resolution.{ResolvedMethod, chain, first_in, is_superclass, members_class, names_class, selectable_in, selected_from, selected_special};
ghost use Rattle.classes.specs.Places.{IsMethodAt, LocatesItem};

use crate::chain::superclass_name;
use crate::list::Classes;
use crate::look::{ClassNamed, Selectable};
use crate::lookup::method_number_at;
use crate::names::members_class;
use crate::walk::first_up;
use descriptor::{is_constructor_name, same_text};
use jvms_program::number::MethodNumber;
use jvms_program::program::MethodReference;

/// Decides whether a class is a proper superclass of another.
fn is_superclass(program: &Classes, above: &[u16], class: &[u16]) -> bool
    ensures { result ≡ is_superclass program.now above.now class.now }
{
    !same_text(above, class) && is_up(program, above, class)
}

/// Decides whether a class or one of its superclasses has a name.
fn is_up(program: &Classes, name: &[u16], class: &[u16]) -> bool
    ensures { result ≡ names_class name.now (chain program.now class.now) }
{
    first_up(program, class, &ClassNamed { name }).is_some()
}

impl Classes {
    /// Decides whether a class or one of its superclasses has a name.
    pub fn is_or_extends(&self, class: &[u16], name: &[u16]) -> bool
        ensures { result ≡ names_class name.now (chain self.now class.now) }
    {
        is_up(self, name, class)
    }

    /// Selects the method for a call of the method of a number, from the class of a name up its superclasses. A private
    /// method is itself selected.
    pub fn select_from(&self, class: &[u16], n: MethodNumber) -> Option<MethodNumber>
        ensures { (found : ResolvedMethod) → IsMethodAt self.now found n
            → LocatesItem (IsMethodAt self.now) (selected_from self.now class.now found) result }
    {
        let method = self.method(n)?;
        if method.flags.is_private {
            return Some(n);
        }
        self.select_named(class, method.name.as_slice(), method.descriptor.as_slice())
    }

    /// Returns the first method of a name and a descriptor that is neither static nor private, from the class of a name
    /// up its superclasses.
    pub fn select_named(
        &self,
        class: &[u16],
        name: &[u16],
        descriptor: &[u16],
    ) -> Option<MethodNumber>
        ensures { LocatesItem (IsMethodAt self.now)
            (first_in (selectable_in name.now descriptor.now)
            (chain self.now (members_class class.now))) result }
    {
        method_number_at(first_up(self, members_class(class), &Selectable { name, descriptor }))
    }

    /// Selects the method for an invokespecial in the class `current` (JVMS 6.5 invokespecial). That is the one of the
    /// number if it is a constructor, or if its named class is no superclass of `current`. Else it is selected from the
    /// superclass of `current` on.
    pub fn select_special(
        &self,
        current: &[u16],
        r: &MethodReference,
        n: MethodNumber,
    ) -> Option<MethodNumber>
        ensures { (found : ResolvedMethod) → IsMethodAt self.now found n → LocatesItem
            (IsMethodAt self.now) (selected_special self.now current.now r.now found) result }
    {
        if is_constructor_name(r.name.as_slice())
            || !is_superclass(self, r.class.as_slice(), current)
        {
            return Some(n);
        }
        let class = self.class_named(current)?;
        self.select_from(superclass_name(class)?, n)
    }
}
