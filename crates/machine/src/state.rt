//! The parts of a machine's state.

ghost use Rattle.std.specs.Prelude.{◌≡◌, slice_get};
ghost use Rattle.jvms_machine.specs.Heap.{value_of};

mod objects;
mod threads;

use crate::machine::Machine;
use exec_ref::classes::FieldName;
use invoke::program::Program;
use jvms_machine::machine::Limits;
use jvms_machine::state::Initialisation;
use jvms_machine::value::Value;
use jvms_program::number::ClassNumber;
pub use threads::FrameView;

impl<'p> Machine<'p> {
    /// Returns the program.
    pub fn program(&self) -> &'p Program
        ensures { result.now ≡ self.now.program }
    {
        self.parts.program()
    }

    /// Returns the limits of the run.
    pub fn limits(&self) -> Limits
        ensures { result ≡ self.now.limits }
    {
        self.parts.limits
    }

    /// Returns the state of the initialisation of a class (JVMS 5.5).
    pub fn initialisation(&self, class: ClassNumber) -> Option<Initialisation>
        ensures { result ≡ slice_get self.now.state.initialisations class }
    {
        self.parts.initialisation(class)
    }

    /// Returns the value of a static field, or `None` if no class has such a static field.
    pub fn static_value(&self, key: &FieldName) -> Option<Value>
        ensures { result ≡ value_of key.now self.now.state.statics }
    {
        self.parts.statics.value(key)
    }
}
