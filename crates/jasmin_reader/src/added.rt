//! Adds a statement to the state of the reader.

ghost use Rattle.std.specs.Prelude.{◌≡◌, OnOk, Some, ◌++◌, ◌∷◌, []};
ghost use Rattle.jasmin.specs.Reading.{method_lines_of, with_method, with_statement, new_method};

use crate::in_method::{
    with_catch, with_default, with_instruction, with_label, with_labelled_instruction, with_match,
    with_max_locals, with_max_stack, with_table_label, with_throws,
};
use jasmin::reading::{OpenMethod, Part, Reading};
use jasmin::source::MethodLines;
use jasmin::statement::Statement;
use shared_data::items::Items;
use shared_data::shared::Text;
use std::alloc::{AllocError, Global};

/// Returns a method after its head.
fn new_method(alloc: Global, access: u16, name: Text, descriptor: Text) -> OpenMethod
    ensures { result ≡ new_method access name descriptor }
{
    OpenMethod {
        access,
        name,
        descriptor,
        throws: Items::new(alloc),
        max_stack: None,
        max_locals: None,
        catches: Items::new(alloc),
        code: Items::new(alloc),
        switch: None,
    }
}

/// Returns the closed method. A limit that no line gives is 1.
fn method_lines_of(method: OpenMethod) -> MethodLines
    ensures { result ≡ method_lines_of method }
{
    MethodLines {
        access: method.access,
        name: method.name,
        descriptor: method.descriptor,
        throws: method.throws,
        max_stack: method.max_stack.unwrap_or(1),
        max_locals: method.max_locals.unwrap_or(1),
        catches: method.catches,
        code: method.code,
    }
}

/// Closes the open method, if there is one.
fn with_end(reading: &mut Reading) -> Result<(), AllocError>
    ensures { OnOk result (reading.new ≡ with_method reading.old.method reading.old) }
{
    match reading.method.take() {
        Some(method) => reading.methods.push(method_lines_of(method)),
        None => Ok(()),
    }
}

/// Adds a statement to the state of the reader.
///
/// # Errors
///
/// Returns `AllocError` if memory ran out.
#[tactic(auto, unfolding(jasmin::specs::Reading::with_statement))]
pub(crate) fn with_statement(
    alloc: Global,
    reading: &mut Reading,
    statement: Statement,
) -> Result<(), AllocError>
    ensures { OnOk result (reading.new ≡ with_statement reading.old statement) }
{
    match statement {
        Statement::Blank | Statement::Dropped => {}
        Statement::Bytecode => reading.has_bytecode = true,
        Statement::SourceFile => reading.has_source = true,
        Statement::Class { access, name } => {
            reading.part = Part::Class;
            reading.access = access;
            reading.name = Some(name);
        }
        Statement::Superclass(name) => {
            reading.part = Part::Super;
            reading.superclass = Some(name);
        }
        Statement::Implements(name) => {
            reading.part = Part::Implements;
            reading.interfaces.push(name)?;
        }
        Statement::Field(field) => {
            reading.part = Part::Members;
            reading.fields.push(field)?;
        }
        Statement::Method {
            access,
            name,
            descriptor,
        } => {
            reading.part = Part::Members;
            reading.method = Some(new_method(alloc, access, name, descriptor));
        }
        Statement::EndMethod => with_end(reading)?,
        Statement::MaxStack(limit) => with_max_stack(&mut reading.method, limit),
        Statement::MaxLocals(limit) => with_max_locals(&mut reading.method, limit),
        Statement::Catch(line) => with_catch(&mut reading.method, line)?,
        Statement::Throws(name) => with_throws(&mut reading.method, name)?,
        Statement::TableLabel(label) => with_table_label(&mut reading.method, label)?,
        Statement::Match(line) => with_match(&mut reading.method, line)?,
        Statement::Default(label) => with_default(alloc, &mut reading.method, label)?,
        Statement::Label(label) => with_label(&mut reading.method, label)?,
        Statement::Instruction(instruction) => {
            with_instruction(alloc, &mut reading.method, instruction)?
        }
        Statement::LabelledInstruction(label, instruction) => {
            with_labelled_instruction(alloc, &mut reading.method, label, instruction)?
        }
    }
    Ok(())
}
