//! The class of an object, and its subtypes (JVMS 4.10.1.2).

ghost use Rattle.std.specs.Prelude.{◌≡◌};
ghost use Rattle.jvms_program.specs.Resolution.{fits};
ghost use Rattle.heap.specs.Objects.{IsNumberOf};

use jvms_program::number::ClassNumber;
use program::Program;

/// The class of an object.
#[derive(Clone, Copy)]
pub struct ObjectClass<'a> {
    /// Its name.
    pub name: &'a [u16],
    /// Its number, if the object is an instance.
    pub number: Option<ClassNumber>,
}

impl ObjectClass<'_> {
    /// Decides whether the class is a subtype of the class of a name. An instance's class is found by its number.
    pub fn fits(self, program: &Program, name: &[u16]) -> bool
        requires { IsNumberOf program.now self.number self.name.now }
        ensures { result ≡ fits program.now self.entry.name.now name.now }
    {
        match self.number {
            Some(class) => program.is_subclass_named(class, name),
            None => program.fits(self.name, name),
        }
    }
}
