//! A program as a list of its classes.

ghost use Rattle.std.specs.Prelude.{◌≡◌, IfOk, IsOk, None, false, option_copied, slice_get};
ghost use Rattle.std.specs.Option.{option_map, unwrap_or};
ghost use Rattle.jvms_program.specs.BuiltIn.{is_built_in};
ghost use Rattle.jvms_program.specs.Program.{IsProgram, class_named, class_number, method_at, key_of};
ghost use Rattle.jvms_program.specs.Resolution.{class_exists};

use crate::tables::{Tables, tables_of};
use classes::Classes;
use jvms_program::key::MethodKey;
use jvms_program::number::{ClassNumber, MethodNumber};
use jvms_program::program::{Class, Method};
use std::alloc::{AllocError, Global};
use std::marker::Model;

/// A program: the built-in classes, followed by others. Contracts see the list of its classes.
#[derive(Drop)]
pub struct Program {
    /// The classes, with look-ups by name.
    pub(crate) by_name: Classes,
    /// The tables for frequent look-ups.
    pub(crate) tables: Tables,
}

impl Model for Program {
    ghost use Rattle.std.specs.Prelude.{List};
    ghost use Rattle.jvms_program.specs.declared.program.Class.{Class};
    ghost use Rattle.program.specs.TablesOf.{AreTablesOf};

    ghost Value = { List Class };

    ghost view = { λ p. p.by_name };

    ghost invariant = { λ p. AreTablesOf p.by_name p.tables };
}

impl Program {
    /// Creates the program of these classes, with its tables.
    pub fn new(alloc: Global, classes: Classes) -> Result<Program, AllocError>
        ensures { IfOk result (λ p. p ≡ classes) }
    {
        let tables = tables_of(alloc, &classes)?;
        Ok(Program {
            by_name: classes,
            tables,
        })
    }

    /// Returns the classes, with look-ups by name alone.
    pub fn by_name(&self) -> &Classes
        ensures { result.now ≡ self.now }
    {
        &self.by_name
    }

    /// States that the classes are a program: the built-in classes come first, and types are those that descriptors
    /// spell. It does nothing at run time.
    pub fn program_invariant(&self)
        ensures { IsProgram self.now }
    {
        self.by_name.program_invariant();
    }

    /// Returns the classes in order.
    pub fn classes(&self) -> &[Class]
        ensures { result.now ≡ self.now }
    {
        self.by_name.classes()
    }

    /// Returns the class of a number.
    pub fn class(&self, number: usize) -> Option<&Class>
        ensures { option_copied result ≡ slice_get self.now number }
    {
        self.by_name.class(number)
    }

    /// Returns whether the class of a number is built in, or false if there is no such class.
    pub fn is_built_in(&self, number: usize) -> bool
        ensures { result
            ≡ unwrap_or (option_map (λ c. is_built_in c.name) (slice_get self.now number)) false }
    {
        self.by_name.is_built_in(number)
    }

    /// Returns the class of a name.
    pub fn class_named(&self, name: &[u16]) -> Option<&Class>
        ensures { option_copied result ≡ class_named self.now name.now }
    {
        self.by_name.class_named(name)
    }

    /// Returns the number of the class of a name: its place in the list.
    pub fn class_number(&self, name: &[u16]) -> Option<ClassNumber>
        ensures { result ≡ class_number self.now name.now }
    {
        self.by_name.class_number(name)
    }

    /// Returns the method of a number.
    pub fn method(&self, n: MethodNumber) -> Option<&Method>
        ensures { option_copied result ≡ method_at self.now n }
    {
        self.by_name.method(n)
    }

    /// Returns the key of a method in a trace, if there is a method of the number.
    pub fn key(&self, n: MethodNumber) -> Result<Option<MethodKey>, AllocError>
        ensures key { IfOk result (λ key. key ≡ key_of self.now n) }
        // If there is no such method, it doesn't fail.
        ensures none { key_of self.now n ≡ None → IsOk result }
    {
        self.by_name.key(n)
    }

    /// Decides whether the class of a name is there. For an array that is the class of its elements.
    pub fn has_class(&self, name: &[u16]) -> bool
        ensures { result ≡ class_exists self.now name.now }
    {
        self.by_name.has_class(name)
    }
}
