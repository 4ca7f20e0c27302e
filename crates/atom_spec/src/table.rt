//! Look-up tables of what the lines of a specification say, by class, name and descriptor.

ghost use Rattle.std.specs.Prelude.{◌≡◌, ℕ, List, true, false, ◌&&◌, OnOk, if◌then◌else◌};
ghost use Rattle.jvms_file.specs.Names.{same_text};

use crate::texts::Texts;
use jvms_program::key::MethodKey;
use std::alloc::{AllocError, Global};
use velodrome::specification::{Pattern, SpecificationLine};

/// The decision for the methods of a class with one name: for each descriptor that lines name, and for all others.
#[derive(Drop)]
struct NameTable {
    other: bool,
    exactly: Texts<bool>,
}

/// The decision for the methods of a class: for each name that lines name, and for all others.
#[derive(Drop)]
struct ClassTable {
    other: bool,
    names: Texts<NameTable>,
}

/// The decision for all methods: for each class that lines name, and for all others.
#[derive(Drop)]
pub(crate) struct Table {
    other: bool,
    classes: Texts<ClassTable>,
}

impl NameTable {
    ghost use Rattle.atom_spec.specs.Tables.{decision_of_name};

    /// Returns a table with one decision for all descriptors.
    fn new(alloc: Global, other: bool) -> NameTable
        ensures { (q : List ℕ) → decision_of_name result q ≡ other }
    {
        NameTable {
            other,
            exactly: Texts::new(alloc),
        }
    }

    /// Returns the decision for a descriptor.
    fn decision(&self, descriptor: &[u16]) -> bool
        ensures { result ≡ decision_of_name self.now descriptor.now }
    {
        match self.exactly.find(descriptor) {
            Some(decision) => *decision,
            None => self.other,
        }
    }

    /// Sets the decision for a descriptor.
    fn put(&mut self, alloc: Global, descriptor: &[u16], decision: bool) -> Result<(), AllocError>
        ensures { OnOk result ((q : List ℕ) → decision_of_name self.new q
            ≡ (if same_text q descriptor.now then decision else decision_of_name self.old q)) }
    {
        self.exactly.put(alloc, descriptor, decision)
    }
}

impl ClassTable {
    ghost use Rattle.atom_spec.specs.Tables.{decision_of_name, decision_of_class};

    /// Returns a table with one decision for all names.
    fn new(alloc: Global, other: bool) -> ClassTable
        ensures { (p q : List ℕ) → decision_of_class result p q ≡ other }
    {
        ClassTable {
            other,
            names: Texts::new(alloc),
        }
    }

    /// Returns the decision for a name and a descriptor.
    fn decision(&self, name: &[u16], descriptor: &[u16]) -> bool
        ensures { result ≡ decision_of_class self.now name.now descriptor.now }
    {
        match self.names.find(name) {
            Some(table) => table.decision(descriptor),
            None => self.other,
        }
    }

    /// Removes the table of a name and returns it. Without one, returns a table of the common decision.
    fn take(&mut self, alloc: Global, name: &[u16]) -> NameTable
        ensures value { (q : List ℕ)
            → decision_of_name result q ≡ decision_of_class self.old name.now q }
        ensures others { (p q : List ℕ) → same_text p name.now ≡ false
            → decision_of_class self.new p q ≡ decision_of_class self.old p q }
    {
        match self.names.take(name) {
            Some(table) => table,
            None => NameTable::new(alloc, self.other),
        }
    }

    /// Sets the decision for all methods of a name.
    fn put_name(&mut self, alloc: Global, name: &[u16], decision: bool) -> Result<(), AllocError>
        ensures { OnOk result ((p q : List ℕ) → decision_of_class self.new p q
            ≡ (if same_text p name.now then decision else decision_of_class self.old p q)) }
    {
        self.names.put(alloc, name, NameTable::new(alloc, decision))
    }

    /// Sets the decision for a name with a descriptor.
    fn put_exactly(
        &mut self,
        alloc: Global,
        name: &[u16],
        descriptor: &[u16],
        decision: bool,
    ) -> Result<(), AllocError>
        ensures { OnOk result ((p q : List ℕ) → decision_of_class self.new p q
            ≡ (if same_text p name.now && same_text q descriptor.now
            then decision else decision_of_class self.old p q)) }
    {
        let mut table = self.take(alloc, name);
        table.put(alloc, descriptor, decision)?;
        self.names.put(alloc, name, table)
    }
}

impl Table {
    ghost use Rattle.jvms_program.specs.declared.key.MethodKey.{MethodKey};
    ghost use Rattle.velodrome.specs.Specification.{is_of};
    ghost use Rattle.atom_spec.specs.Tables.{decision_of_class, decision_of};

    /// Returns a table with one decision for all methods.
    pub(crate) fn new(alloc: Global, other: bool) -> Table
        ensures { (m : MethodKey) → decision_of result m ≡ other }
    {
        Table {
            other,
            classes: Texts::new(alloc),
        }
    }

    /// Returns the decision for a method.
    pub(crate) fn decision(&self, method: &MethodKey) -> bool
        ensures { result ≡ decision_of self.now method.now }
    {
        match self.classes.find(method.class.as_slice()) {
            Some(table) => table.decision(method.name.as_slice(), method.descriptor.as_slice()),
            None => self.other,
        }
    }

    /// Removes the table of a class and returns it. Without one, returns a table of the common decision.
    fn take(&mut self, alloc: Global, class: &[u16]) -> ClassTable
        ensures value { (m : MethodKey) → same_text m.class class.now ≡ true
            → decision_of_class result m.name m.descriptor ≡ decision_of self.old m }
        ensures others { (m : MethodKey) → same_text m.class class.now ≡ false
            → decision_of self.new m ≡ decision_of self.old m }
    {
        match self.classes.take(class) {
            Some(table) => table,
            None => ClassTable::new(alloc, self.other),
        }
    }

    /// Sets the decision for all methods of a class.
    fn put_class(&mut self, alloc: Global, class: &[u16], decision: bool) -> Result<(), AllocError>
        ensures { OnOk result ((m : MethodKey) → decision_of self.new m
            ≡ (if same_text m.class class.now then decision else decision_of self.old m)) }
    {
        self.classes
            .put(alloc, class, ClassTable::new(alloc, decision))
    }

    /// Sets the decision for the methods of a class with one name.
    fn put_name(
        &mut self,
        alloc: Global,
        class: &[u16],
        name: &[u16],
        decision: bool,
    ) -> Result<(), AllocError>
        ensures { OnOk result ((m : MethodKey)
            → decision_of self.new m ≡ (if same_text m.class class.now && same_text m.name name.now
            then decision else decision_of self.old m)) }
    {
        let mut table = self.take(alloc, class);
        table.put_name(alloc, name, decision)?;
        self.classes.put(alloc, class, table)
    }

    /// Sets the decision for one method.
    fn put_exactly(
        &mut self,
        alloc: Global,
        class: &[u16],
        name: &[u16],
        descriptor: &[u16],
        decision: bool,
    ) -> Result<(), AllocError>
        ensures { OnOk result ((m : MethodKey)
            → decision_of self.new m ≡ (if same_text m.class class.now && same_text m.name name.now
            && same_text m.descriptor descriptor.now then decision else decision_of self.old m)) }
    {
        let mut table = self.take(alloc, class);
        table.put_exactly(alloc, name, descriptor, decision)?;
        self.classes.put(alloc, class, table)
    }

    /// Sets the decision of a line for all methods of its pattern.
    pub(crate) fn put(&mut self, alloc: Global, line: &SpecificationLine) -> Result<(), AllocError>
        ensures { OnOk result ((m : MethodKey) → decision_of self.new m
            ≡ (if is_of line.now.pattern m then line.now.is_atomic else decision_of self.old m)) }
    {
        let decision = line.is_atomic;
        match &line.pattern {
            Pattern::All => {
                *self = Table::new(alloc, decision);
                Ok(())
            }
            Pattern::Class { class } => self.put_class(alloc, class.as_slice(), decision),
            Pattern::Named { class, name } => {
                self.put_name(alloc, class.as_slice(), name.as_slice(), decision)
            }
            Pattern::Exactly {
                class,
                name,
                descriptor,
            } => self.put_exactly(
                alloc,
                class.as_slice(),
                name.as_slice(),
                descriptor.as_slice(),
                decision,
            ),
        }
    }
}
