//! The list of a program's classes, with the number of each by its name.

ghost use Rattle.std.specs.Prelude.{◌≡◌, ◌++◌, ◌≤◌, IfOk, OnOk, false, length, map, option_copied, slice_get};
ghost use Rattle.std.specs.Option.{option_map, unwrap_or};
ghost use Rattle.std.specs.List.{AllByRecursion};
ghost use Rattle.jvms_program.specs.BuiltIn.{built_in_classes, is_built_in};
ghost use Rattle.jvms_program.specs.Program.{IsProgram, class_named, class_number};
ghost use Rattle.jvms_program.specs.Resolution.{names_interface};
ghost use Rattle.classes.specs.Slots.{AreCountable};

use crate::numbers::numbers_by_name;
use built_in::{built_in_classes, is_built_in};
use jvms_program::number::ClassNumber;
use jvms_program::program::{Class, ClassKind};
use std::alloc::{AllocError, Global};
use std::collections::BTreeMap;
use std::marker::Model;

/// The greatest number of classes of a program.
const MOST_CLASSES: usize = 1_048_576;

/// The classes of a program: the built-in ones, followed by others. They may be circular: one may be its own superclass
/// or superinterface. Contracts see the list of them.
#[derive(Drop)]
pub struct ClassList {
    classes: Vec<Class>,
    /// For each class, true if it is built in.
    built_in: Vec<bool>,
    /// The number of each class by its name.
    by_name: BTreeMap<Vec<u16>, usize>,
}

impl Model for ClassList {
    ghost use Rattle.std.specs.Prelude.{List, ◌≡◌, ◌≤◌, length, map};
    ghost use Rattle.jvms_program.specs.declared.program.Class.{Class};
    ghost use Rattle.jvms_program.specs.BuiltIn.{is_built_in};
    ghost use Rattle.jvms_program.specs.Program.{IsProgram};
    ghost use Rattle.classes.specs.Numbers.{AreNumbersOf};
    ghost use Rattle.classes.specs.Slots.{AreCountable};

    ghost Value = { List Class };

    ghost view = { λ p. p.classes.items };

    ghost invariant = { λ p. (p.built_in.items ≡ map (λ c. is_built_in c.name) p.classes.items)
        × AreNumbersOf p.classes.items p.by_name × IsProgram p.classes.items
        × AreCountable p.classes.items × (length p.classes.items ≤ 1048576) };
}

/// Returns for each of these classes whether it is built in.
fn built_in_marks(alloc: Global, classes: &[Class]) -> Result<Vec<bool>, AllocError>
    ensures { IfOk result (λ marks. marks.items ≡ map (λ c. is_built_in c.name) classes.now) }
{
    let mut marks = Vec::with_capacity(alloc, classes.len())?;
    for class in classes {
        marks.push(is_built_in(class.name.as_slice()))?;
    }
    Ok(marks)
}

/// Returns the greatest number of fields of a class.
fn most_fields(classes: &[Class]) -> usize
    ensures { AllByRecursion (λ c. length c.fields ≤ result) classes.now }
{
    let mut most = 0;
    for class in classes {
        most = most.max(class.fields.len());
    }
    most
}

/// Fails if the number of classes times the greatest number of fields of any overflows. A class file has at most 65,535
/// fields, so that needs more than 2^48 classes, which no memory holds.
fn count_fields(classes: &[Class]) -> Result<(), AllocError>
    ensures { OnOk result (AreCountable classes.now) }
{
    match classes.len().checked_mul(most_fields(classes)) {
        Some(_) => Ok(()),
        None => Err(AllocError),
    }
}

/// Fails if there are more than `MOST_CLASSES`, because a search marks classes on the stack. Class files of 64 MiB have
/// fewer.
fn count_classes(count: usize) -> Result<(), AllocError>
    ensures { OnOk result (count ≤ 1048576) }
{
    if count > MOST_CLASSES {
        return Err(AllocError);
    }
    Ok(())
}

impl ClassList {
    /// Creates the list of the built-in classes, followed by these.
    pub fn new(alloc: Global, own: Vec<Class>) -> Result<ClassList, AllocError>
        // Types are those that descriptors spell, as in the classes that class files mean.
        requires { IsProgram (built_in_classes ++ own.items) }
        ensures { IfOk result (λ p. p ≡ built_in_classes ++ own.items) }
    {
        let mut own = own;
        let mut classes = built_in_classes(alloc)?;
        classes.append(&mut own)?;
        count_classes(classes.len())?;
        count_fields(classes.as_slice())?;
        let built_in = built_in_marks(alloc, classes.as_slice())?;
        let by_name = numbers_by_name(alloc, classes.as_slice())?;
        Ok(ClassList {
            classes,
            built_in,
            by_name,
        })
    }

    /// States that the classes are a program: the built-in classes come first, and types are those that descriptors
    /// spell. It does nothing at run time.
    pub fn program_invariant(&self)
        ensures { IsProgram self.now }
    {
        let _ = &self.classes;
    }

    /// States that the number of classes times the greatest number of fields of any doesn't overflow. It does nothing
    /// at run time.
    pub(crate) fn countable_invariant(&self)
        ensures { AreCountable self.now }
    {
        let _ = &self.classes;
    }

    /// Returns the classes in order.
    pub fn classes(&self) -> &[Class]
        ensures { result.now ≡ self.now }
    {
        self.classes.as_slice()
    }

    /// Returns the class of a number.
    pub fn class(&self, number: usize) -> Option<&Class>
        ensures { option_copied result ≡ slice_get self.now number }
    {
        self.classes().get(number)
    }

    /// Returns whether the class of a number is built in, or false if there is no such class.
    pub fn is_built_in(&self, number: usize) -> bool
        ensures { result
            ≡ unwrap_or (option_map (λ c. is_built_in c.name) (slice_get self.now number)) false }
    {
        self.built_in.get(number).copied().unwrap_or(false)
    }

    /// Returns the class of a name.
    #[tactic(auto, using(crate::proofs::PlaceLaws::found_by_number))]
    pub fn class_named(&self, name: &[u16]) -> Option<&Class>
        ensures { option_copied result ≡ class_named self.now name.now }
    {
        self.class(self.class_number(name)?)
    }

    /// Returns the number of the class of a name: its place in the list.
    pub fn class_number(&self, name: &[u16]) -> Option<ClassNumber>
        ensures { result ≡ class_number self.now name.now }
    {
        self.by_name.get(name).copied()
    }

    /// Returns whether the class of a name is there, and an interface.
    pub fn names_interface(&self, name: &[u16]) -> bool
        ensures { result ≡ names_interface self.now name.now }
    {
        match self.class_named(name) {
            Some(class) => matches!(class.kind, ClassKind::Interface),
            None => false,
        }
    }

    /// States that there are at most 1,048,576 classes, so that each can be marked. It does nothing at run time.
    pub(crate) fn few_classes_invariant(&self)
        ensures { length self.now ≤ 1048576 }
    {
        let _ = &self.classes;
    }
}
