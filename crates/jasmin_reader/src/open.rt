//! The state of the reader of a source.

ghost use Rattle.std.specs.Prelude.{◌≡◌, IfOk, OnOk};
ghost use Rattle.jasmin.specs.Reading.{empty_reading, is_repeated, with_statement};
ghost use Rattle.jasmin_reader.specs.Members.{FollowsFields, FollowsMethods};

use crate::added::with_statement;
use crate::members::Members;
use crate::noted::{note_field, note_method};
use crate::once::{has_locals, has_stack};
use jasmin::reading::{Part, Reading};
use jasmin::statement::Statement;
use shared_data::items::Items;
use std::alloc::{AllocError, Global};
use std::marker::Model;

/// The state of the reader, with the sets of its members. The sets make it fast to decide whether a member is repeated.
#[derive(Drop)]
struct Parts {
    reading: Reading,
    fields: Members,
    methods: Members,
}

/// The state of the reader, boxed because it moves from line to line. In contracts it is the state without the sets.
#[derive(Drop)]
pub(crate) struct Open {
    parts: Box<Parts>,
}

impl Model for Open {
    ghost use Rattle.jasmin.specs.declared.reading.Reading.{Reading as ReadingValue};
    ghost use Rattle.jasmin_reader.specs.Members.{AreFields, AreMethods};

    ghost Value = { ReadingValue };

    ghost view = { λ o. o.parts.value.reading };

    ghost invariant = { λ o. AreFields o.parts.value.fields o.parts.value.reading.fields
        × AreMethods o.parts.value.methods o.parts.value.reading.methods };
}

/// Returns the state before the first line.
fn nothing(alloc: Global) -> Reading
    ensures { result ≡ empty_reading }
{
    Reading {
        part: Part::Beginning,
        has_bytecode: false,
        has_source: false,
        access: 0,
        name: None,
        superclass: None,
        interfaces: Items::new(alloc),
        fields: Items::new(alloc),
        methods: Items::new(alloc),
        method: None,
    }
}

impl Parts {
    /// Notes the member of a statement, if it is one.
    fn note(&mut self, statement: &Statement) -> Result<(), AllocError>
        ensures reading { OnOk result (self.new.reading ≡ self.old.reading) }
        ensures fields { OnOk result
            (FollowsFields self.old.fields self.new.fields statement.now) }
        ensures methods { OnOk result (FollowsMethods self.old.methods self.new.methods
            self.old.reading.method statement.now) }
    {
        note_field(&mut self.fields, statement)?;
        note_method(&mut self.methods, &self.reading.method, statement)
    }

    /// Adds a statement.
    fn add(&mut self, alloc: Global, statement: Statement) -> Result<(), AllocError>
        ensures reading { OnOk result
            (self.new.reading ≡ with_statement self.old.reading statement) }
        ensures fields { OnOk result (FollowsFields self.old.fields self.new.fields statement) }
        ensures methods { OnOk result
            (FollowsMethods self.old.methods self.new.methods self.old.reading.method statement) }
    {
        match self.note(&statement) {
            Ok(()) => with_statement(alloc, &mut self.reading, statement),
            Err(error) => {
                drop(statement);
                Err(error)
            }
        }
    }
}

impl Open {
    /// Returns the state before the first line.
    pub(crate) fn new(alloc: Global) -> Result<Self, AllocError>
        ensures { IfOk result (λ o. o ≡ empty_reading) }
    {
        let parts = Parts {
            reading: nothing(alloc),
            fields: Members::new(alloc),
            methods: Members::new(alloc),
        };
        Ok(Open {
            parts: Box::new(alloc, parts)?,
        })
    }

    /// Returns what the lines so far have stated.
    pub(crate) fn reading(&self) -> &Reading
        ensures { result.now ≡ self.now }
    {
        &self.parts.reading
    }

    /// Returns what the lines so far have stated, and drops the sets of members.
    pub(crate) fn into_reading(self) -> Reading
        ensures { result ≡ self }
    {
        let Parts {
            reading,
            fields: _,
            methods: _,
        } = Box::into_inner(self.parts);
        reading
    }

    /// Decides whether a statement that is allowed once is repeated, or a member with this name and descriptor exists.
    #[tactic(auto, unfolding(jasmin::specs::Reading::is_repeated))]
    pub(crate) fn is_repeated(&self, statement: &Statement) -> Result<bool, AllocError>
        ensures { IfOk result (λ repeated. repeated ≡ is_repeated self.now statement.now) }
    {
        match statement {
            Statement::Bytecode => Ok(self.parts.reading.has_bytecode),
            Statement::SourceFile => Ok(self.parts.reading.has_source),
            Statement::Class { access: _, name: _ } => Ok(self.parts.reading.name.is_some()),
            Statement::Superclass(_) => Ok(self.parts.reading.superclass.is_some()),
            Statement::Field(field) => self.parts.fields.has(&field.name, &field.descriptor),
            Statement::Method {
                access: _,
                name,
                descriptor,
            } => self.parts.methods.has(name, descriptor),
            Statement::MaxStack(_) => Ok(has_stack(&self.parts.reading.method)),
            Statement::MaxLocals(_) => Ok(has_locals(&self.parts.reading.method)),
            Statement::Blank
            | Statement::Implements(_)
            | Statement::EndMethod
            | Statement::Catch(_)
            | Statement::Throws(_)
            | Statement::Dropped
            | Statement::TableLabel(_)
            | Statement::Match(_)
            | Statement::Default(_)
            | Statement::Label(_)
            | Statement::Instruction(_)
            | Statement::LabelledInstruction(_, _) => Ok(false),
        }
    }

    /// Returns the state after a statement.
    pub(crate) fn with_statement(
        self,
        alloc: Global,
        statement: Statement,
    ) -> Result<Self, AllocError>
        ensures { IfOk result (λ o. o ≡ with_statement self statement) }
    {
        let Open { mut parts } = self;
        parts.add(alloc, statement)?;
        Ok(Open { parts })
    }
}
