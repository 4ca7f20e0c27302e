//! Resolves the members that instructions name (JVMS 5.4.3).

ghost use Rattle.jvms_program.specs.Resolution.{resolved_method};
ghost use Rattle.classes.specs.MethodNames.{reference};
ghost use Rattle.classes.specs.Places.{IsMethodAt, Resolves};

use crate::exists::class_exists;
use crate::list::Classes;
use crate::methods::{MethodNames, reference_method};
use jvms_program::number::MethodNumber;
use jvms_program::program::MethodReference;
use jvms_program::thrown::Thrown;

impl Classes {
    /// Resolves a method's names (JVMS 5.4.3.3, 5.4.3.4) to its number. Returns the exception that resolution
    /// throws if there is no such method. Allocates no memory.
    pub fn resolve_named(&self, is_static: bool, r: MethodNames) -> Result<MethodNumber, Thrown>
        ensures { Resolves (IsMethodAt self.now)
            (resolved_method self.now is_static (reference r.entry)) result }
    {
        if !class_exists(self, r.class) {
            return Err(Thrown::NoClassDefFoundError);
        }
        if r.is_interface != self.names_interface(r.class) {
            return Err(Thrown::IncompatibleClassChangeError);
        }
        let Some(n) = reference_method(self, r) else {
            return Err(Thrown::NoSuchMethodError);
        };
        match self.method(n) {
            Some(method) if method.flags.is_static == is_static => Ok(n),
            _ => Err(Thrown::IncompatibleClassChangeError),
        }
    }

    /// Resolves a method reference (JVMS 5.4.3.3, 5.4.3.4) to its number. Returns the exception that resolution
    /// throws if there is no such method.
    pub fn resolve_method(
        &self,
        is_static: bool,
        r: &MethodReference,
    ) -> Result<MethodNumber, Thrown>
        ensures { Resolves (IsMethodAt self.now) (resolved_method self.now is_static r.now) result }
    {
        let named = MethodNames {
            is_interface: r.is_interface,
            class: r.class.as_slice(),
            name: r.name.as_slice(),
            descriptor: r.descriptor.as_slice(),
        };
        self.resolve_named(is_static, named)
    }
}
