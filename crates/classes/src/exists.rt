//! Tests whether a class is there.

ghost use Rattle.std.specs.Prelude.{◌≡◌, is_some};
ghost use Rattle.jvms_program.specs.Program.{class_named};
ghost use Rattle.jvms_program.specs.Resolution.{class_exists};

use crate::class_type::class_type;
use crate::list::Classes;
use descriptor::ParsedElement;

/// Decides whether there is a class of a name that is no array's.
fn is_there(program: &Classes, name: &[u16]) -> bool
    ensures { result ≡ is_some (class_named program.now name.now) }
{
    program.class_named(name).is_some()
}

/// Decides whether the class of a name is there. For an array that is the class of its elements.
pub(crate) fn class_exists(program: &Classes, name: &[u16]) -> bool
    ensures { result ≡ class_exists program.now name.now }
{
    match class_type(name) {
        None => false,
        Some(t) => match t.innermost {
            ParsedElement::Primitive(_) => true,
            ParsedElement::Object(element) => is_there(program, element),
        },
    }
}

impl Classes {
    /// Decides whether the class of a name is there. For an array that is the class of its elements.
    pub fn has_class(&self, name: &[u16]) -> bool
        ensures { result ≡ class_exists self.now name.now }
    {
        class_exists(self, name)
    }
}
