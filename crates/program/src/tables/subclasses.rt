//! Subtypes of the classes of a program by their numbers (JVMS 4.10.1.2, 6.5 checkcast).

ghost use Rattle.std.specs.Prelude.{◌≡◌, ℕ, IfSome, List, Some, slice_get, true};
ghost use Rattle.jvms_program.specs.declared.program.Class.{Class as Seen};
ghost use Rattle.jvms_program.specs.declared.program.Instruction.TheVariants as instruction;
ghost use Rattle.jvms_program.specs.Program.{class_number};
ghost use Rattle.jvms_program.specs.Resolution.{ancestry, class_exists, fits, names_class};
ghost use Rattle.program.specs.Tables.{instruction_at, name_at};

use crate::list::Program;
use classes::descriptor::{is_array_name, same_text};
use jvms_file::insn::ClassUse;
use jvms_program::number::{ClassNumber, MethodNumber};

impl Program {
    /// Returns whether a class is in the ancestry of another, if its set of ancestors is known.
    fn is_in_ancestry(&self, class: ClassNumber, above: ClassNumber) -> Option<bool>
        ensures { (c : Seen) (name : List ℕ) → slice_get self.now class ≡ Some c
            → class_number self.now c.name ≡ Some class → class_number self.now name ≡ Some above
            → IfSome result (λ is. is ≡ names_class name (ancestry self.now c.name)) }
    {
        self.tables.ancestors.has(class, above)
    }

    /// Decides whether the class of the first number is a subtype of the class of the second, if the two may differ.
    #[inline(never)]
    fn is_other_subclass(&self, class: ClassNumber, above: ClassNumber) -> bool
        ensures { result ≡ fits self.now (name_at self.now class) (name_at self.now above) }
    {
        if self.is_plain(class) && self.is_plain(above) {
            if let Some(is_above) = self.is_in_ancestry(class, above) {
                return is_above;
            }
            if self.is_below(class, above) {
                return true;
            }
        }
        self.by_name.fits(self.name_at(class), self.name_at(above))
    }

    /// Decides whether the class of the first number is a subtype of the class of the second. Most often they are the
    /// same class.
    #[inline(always)]
    pub fn is_subclass(&self, class: ClassNumber, above: ClassNumber) -> bool
        ensures { result ≡ fits self.now (name_at self.now class) (name_at self.now above) }
    {
        if class == above && self.is_plain(class) {
            return true;
        }
        self.is_other_subclass(class, above)
    }

    /// Returns the number of the class of a name, if it is there and the name is no array's.
    fn number_of_class(&self, name: &[u16]) -> Option<ClassNumber>
        ensures { IfSome result (λ number. class_number self.now name.now ≡ Some number) }
    {
        if is_array_name(name) {
            None
        } else {
            self.class_number(name)
        }
    }

    /// Returns the number of the class that the instruction at a place of a method names, if it is there and the name is
    /// no array's. Allocates no memory.
    pub fn class_number_at(
        &self,
        method: MethodNumber,
        place: usize,
        how: ClassUse,
        name: &[u16],
    ) -> Option<ClassNumber>
        requires { instruction_at self.now method place ≡ Some (instruction.Class how name.now) }
        ensures name { IfSome result (λ number. name_at self.now number ≡ name.now) }
        ensures there { IfSome result (λ number. class_exists self.now name.now ≡ true) }
    {
        let (number, _class) = self.class_at(method, place, how, name)?;
        if self.is_plain(number) {
            Some(number)
        } else {
            None
        }
    }

    /// Decides whether the class of the first name is a subtype of the class of the second.
    pub fn fits(&self, a: &[u16], b: &[u16]) -> bool
        ensures { result ≡ fits self.now a.now b.now }
    {
        match (self.number_of_class(a), self.number_of_class(b)) {
            (Some(class), Some(above)) => self.is_subclass(class, above),
            _ => self.by_name.fits(a, b),
        }
    }

    /// Decides whether the class of a number is a subtype of the class of a name.
    pub fn is_subclass_named(&self, class: ClassNumber, name: &[u16]) -> bool
        ensures { result ≡ fits self.now (name_at self.now class) name.now }
    {
        if self.is_plain(class) && same_text(self.name_at(class), name) {
            return true;
        }
        match self.number_of_class(name) {
            Some(above) => self.is_subclass(class, above),
            None => self.by_name.fits(self.name_at(class), name),
        }
    }
}
