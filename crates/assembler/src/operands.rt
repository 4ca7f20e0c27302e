//! Adds the entries that instructions name to the constant pool (JVMS 4.4, 6.5), numbered by first use.

ghost use Rattle.std.specs.Prelude.{◌≡◌, [], length, IfOk};
ghost use Rattle.const_pool.specs.Interning.{pool_of};
ghost use Rattle.jasmin.specs.Denote.{operations};
ghost use Rattle.pool_entries.specs.Entries.{Gives, field_entry, method_entry};
ghost use Rattle.assembly.specs.Operands.{loaded_entry, kind_of, operand_entry, operands_onto};
ghost use Rattle.assembler.specs.Steps.{Enters};

use jasmin::source::{CodeItem, FieldName, LoadedConstant, MethodName, Operation};
use jvms_file::insn::Invoke;
use pool_entries::{Entries, EntryFault, MethodKind};
use shared_data::items::Items;
use std::alloc::Global;

/// Returns the index of the constant that `ldc` or `ldc_w` loads.
fn loaded_entry(
    alloc: Global,
    entries: &mut Entries,
    constant: &LoadedConstant,
) -> Result<u16, EntryFault>
    ensures { Gives (loaded_entry (pool_of entries.old) constant.now) result (pool_of entries.new) }
{
    match constant {
        LoadedConstant::Integer(number) => entries.integer(*number),
        LoadedConstant::String(text) => entries.string(alloc, text.as_slice()),
        LoadedConstant::Class(name) => entries.class(alloc, name.as_slice()),
    }
}

/// Returns the index of a field (JVMS 4.4.2).
fn field_entry(alloc: Global, entries: &mut Entries, field: &FieldName) -> Result<u16, EntryFault>
    ensures { Gives (field_entry (pool_of entries.old) field.now.class
        field.now.name field.now.descriptor) result (pool_of entries.new) }
{
    entries.field(
        alloc,
        field.class.as_slice(),
        field.name.as_slice(),
        field.descriptor.as_slice(),
    )
}

/// Returns the kind of a method's entry: a method of an interface for `invokeinterface`, or else one of a class (JVMS
/// 4.4.2).
fn kind_of(how: Invoke) -> MethodKind
    ensures { result ≡ kind_of how }
{
    match how {
        Invoke::Interface => MethodKind::OfInterface,
        _ => MethodKind::OfClass,
    }
}

/// Returns the index of a method that an instruction invokes (JVMS 4.4.2).
fn method_entry(
    alloc: Global,
    entries: &mut Entries,
    how: Invoke,
    method: &MethodName,
) -> Result<u16, EntryFault>
    ensures { Gives (method_entry (kind_of how) (pool_of entries.old) method.now.class
        method.now.name method.now.descriptor) result (pool_of entries.new) }
{
    entries.method(
        alloc,
        kind_of(how),
        method.class.as_slice(),
        method.name.as_slice(),
        method.descriptor.as_slice(),
    )
}

/// Returns the index of the entry that an instruction names, or 0 if it names none.
#[tactic(auto, unfolding(assembly::specs::Operands::operand_entry))]
fn operand_entry(
    alloc: Global,
    entries: &mut Entries,
    operation: &Operation,
) -> Result<u16, EntryFault>
    ensures { Gives (operand_entry (pool_of entries.old) operation.now) result
        (pool_of entries.new) }
{
    match operation {
        Operation::Constant(_, constant) => loaded_entry(alloc, entries, constant.get()),
        Operation::ConstantLong(number) => entries.long(*number),
        Operation::Field(_, field) => field_entry(alloc, entries, field.get()),
        Operation::Invoke(how, method) => method_entry(alloc, entries, *how, method.get()),
        Operation::Class(_, name) => entries.class(alloc, name.as_slice()),
        Operation::MultiNewArray(name, _) => entries.class(alloc, name.as_slice()),
        _ => Ok(0),
    }
}

/// Returns the indices of the entries that the instructions of code name, one for each instruction.
pub(crate) fn operands_of(
    alloc: Global,
    entries: &mut Entries,
    code: &[CodeItem],
) -> Result<Items<u16>, EntryFault>
    ensures exact { Enters (λ numbers. numbers)
        (operands_onto [] (pool_of entries.old) code.now) result (pool_of entries.new) }
    ensures one_each { IfOk result (λ numbers. length numbers ≡ length (operations code.now)) }
{
    let mut numbers = Items::new(alloc);
    for item in code {
        match item {
            CodeItem::Label(_) => {}
            CodeItem::Operation(operation) => {
                let number = operand_entry(alloc, entries, operation)?;
                numbers.push(number)?;
            }
        }
    }
    Ok(numbers)
}
