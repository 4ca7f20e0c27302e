//! Values, as the debugger writes them.

ghost use Rattle.std.specs.Prelude.{◌≡◌, ◌++◌, OnOk, codes};
ghost use Rattle.std.specs.String.{string_bytes};
ghost use Rattle.machine_text.specs.Values.{value_text, values_text};

use escapes::{put_counted, put_signed};
use jvms_machine::value::Value;
use std::alloc::AllocError;

/// Appends an int: `I:n`.
fn put_int(out: &mut String, number: i32) -> Result<(), AllocError>
    ensures { OnOk result (string_bytes out.new ≡ string_bytes out.old
        ++ value_text (Value.Int number)) }
{
    out.push_str("I:")?;
    put_signed(out, i64::from(number))
}

/// Appends a long: `J:n`.
fn put_long(out: &mut String, number: i64) -> Result<(), AllocError>
    ensures { OnOk result (string_bytes out.new ≡ string_bytes out.old
        ++ value_text (Value.Long number)) }
{
    out.push_str("J:")?;
    put_signed(out, number)
}

/// Appends a value.
pub(crate) fn put_value(out: &mut String, value: Value) -> Result<(), AllocError>
    ensures { OnOk result (string_bytes out.new ≡ string_bytes out.old ++ value_text value) }
{
    match value {
        Value::Int(number) => put_int(out, number),
        Value::Long(number) => put_long(out, number),
        Value::Second => out.push_str("+"),
        Value::Null => out.push_str("null"),
        Value::Reference(reference) => put_counted(out, "R:", u64::from(reference)),
        Value::ReturnAddress(place) => put_counted(out, "ret:", place as u64),
        Value::Unset => out.push_str("-"),
    }
}

/// Appends a space and then a value.
fn put_spaced(out: &mut String, value: Value) -> Result<(), AllocError>
    ensures { OnOk result (string_bytes out.new ≡ string_bytes out.old
        ++ (codes " " ++ value_text value)) }
{
    out.push_str(" ")?;
    put_value(out, value)
}

/// Appends values, each after a space.
pub(crate) fn put_values(out: &mut String, values: &[Value]) -> Result<(), AllocError>
    ensures { OnOk result (string_bytes out.new ≡ string_bytes out.old ++ values_text values.now) }
{
    for value in values {
        put_spaced(out, *value)?;
    }
    Ok(())
}
