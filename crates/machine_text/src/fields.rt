//! Fields with their values, as the debugger writes them.

ghost use Rattle.std.specs.Prelude.{◌≡◌, ◌++◌, [], IfOk, OnOk, codes, if◌then◌else◌, unwrap_or};
ghost use Rattle.std.specs.String.{string_bytes};
ghost use Rattle.escapes.specs.Keys.{field_text};
ghost use Rattle.jvms_machine.specs.declared.value.Value.TheVariants as value;
ghost use Rattle.jvms_machine.specs.Heap.{value_of};
ghost use Rattle.jvms_program.specs.Program.{field_key};
ghost use Rattle.machine_text.specs.Objects.{field_line};
ghost use Rattle.machine_text.specs.Parts.{fields_in, fields_text, is_in};
ghost use Rattle.machine_text.specs.Values.{value_text};

use crate::value::put_value;
use classes::FieldName;
use escapes::{FieldKey, put_field};
use jvms_machine::value::Value;
use jvms_program::program::{Class, Field};
use machine::Machine;
use std::alloc::AllocError;

/// The owner of the values of fields.
#[derive(Clone, Copy)]
pub(crate) enum Keeper {
    /// The static fields of all classes.
    Classes,
    /// The instance of a reference.
    Instance(u32),
}

/// Decides whether a field is one of the keeper's.
fn keeps(keeper: Keeper, field: &Field) -> bool
    ensures { result ≡ is_in keeper field.now }
{
    match keeper {
        Keeper::Classes => field.is_static,
        Keeper::Instance(_) => !field.is_static,
    }
}

/// Returns the value of the keeper's field with a key.
fn value_in(machine: &Machine, keeper: Keeper, key: &FieldName) -> Option<Value>
    ensures { result ≡ value_of key.now (fields_in machine.now keeper) }
{
    match keeper {
        Keeper::Classes => machine.static_value(key),
        Keeper::Instance(reference) => machine.field(reference, key),
    }
}

/// Returns the key of a class's field.
fn key_of(class: &Class, field: &Field) -> Result<FieldKey, AllocError>
    ensures { IfOk result (λ key. key ≡ field_key class.now field.now) }
{
    Ok(FieldKey {
        class: class.name.share()?,
        name: field.name.share()?,
        descriptor: field.descriptor.share()?,
    })
}

/// Appends a field with its value: `C.x.D = V`.
fn put_line(out: &mut String, key: &FieldKey, value: Value) -> Result<(), AllocError>
    ensures { OnOk result (string_bytes out.new ≡ string_bytes out.old
        ++ (field_text key.now ++ codes " = " ++ value_text value ++ codes "\n")) }
{
    put_field(out, key)?;
    out.push_str(" = ")?;
    put_value(out, value)?;
    out.push_str("\n")
}

/// Appends the line of a class's field.
fn put_kept(
    out: &mut String,
    machine: &Machine,
    keeper: Keeper,
    class: &Class,
    field: &Field,
) -> Result<(), AllocError>
    ensures { OnOk result (string_bytes out.new ≡ string_bytes out.old
        ++ field_line (fields_in machine.now keeper) (field_key class.now field.now)) }
{
    let key = key_of(class, field)?;
    let name = FieldName {
        class: class.name.as_slice(),
        name: field.name.as_slice(),
        descriptor: field.descriptor.as_slice(),
    };
    let value = value_in(machine, keeper, &name).unwrap_or(Value::Unset);
    put_line(out, &key, value)
}

/// Appends the lines of a class's fields that are the keeper's.
pub(crate) fn put_fields(
    out: &mut String,
    machine: &Machine,
    keeper: Keeper,
    class: &Class,
) -> Result<(), AllocError>
    ensures { OnOk result (string_bytes out.new ≡ string_bytes out.old
        ++ fields_text machine.now keeper class.now) }
{
    for field in class.fields.as_slice() {
        if keeps(keeper, field) {
            put_kept(out, machine, keeper, class, field)?;
        }
    }
    Ok(())
}
