//! The output of a machine, as the debugger writes it.

ghost use Rattle.std.specs.Prelude.{◌≡◌, ◌<◌, ◌++◌, ◌∷◌, [], IfOk, OnOk};
ghost use Rattle.std.specs.List.{flat_map};
ghost use Rattle.std.specs.String.{string_bytes};
ghost use Rattle.escapes.specs.Escapes.{hexadecimal};
ghost use Rattle.machine_text.specs.Objects.{byte_text, bytes_text, output_text};

use escapes::put_counted;
use machine::Machine;
use std::alloc::{AllocError, Global};

/// Returns a hexadecimal digit, in lower case.
fn hexadecimal(digit: u8) -> u8
    requires { digit < 16 }
    ensures exact { result ≡ hexadecimal digit }
    ensures ascii { result < 128 }
{
    if digit < 10 { 48 + digit } else { 87 + digit }
}

/// Appends an ASCII character.
fn put_ascii(out: &mut String, byte: u8) -> Result<(), AllocError>
    requires { byte < 128 }
    ensures { OnOk result (string_bytes out.new ≡ string_bytes out.old ++ byte ∷ []) }
{
    out.push(char::from(byte))
}

/// Appends the two hexadecimal digits of a byte.
fn put_byte(out: &mut String, byte: u8) -> Result<(), AllocError>
    ensures { OnOk result (string_bytes out.new ≡ string_bytes out.old ++ byte_text byte) }
{
    put_ascii(out, hexadecimal(byte / 16))?;
    put_ascii(out, hexadecimal(byte % 16))
}

/// Appends the hexadecimal digits of bytes.
fn put_digits(out: &mut String, bytes: &[u8]) -> Result<(), AllocError>
    ensures { OnOk result (string_bytes out.new ≡ string_bytes out.old
        ++ flat_map byte_text bytes.now) }
{
    for byte in bytes {
        put_byte(out, *byte)?;
    }
    Ok(())
}

/// Appends a space and the hexadecimal digits of bytes. Appends nothing if there are none.
fn put_bytes(out: &mut String, bytes: &[u8]) -> Result<(), AllocError>
    ensures { OnOk result (string_bytes out.new ≡ string_bytes out.old ++ bytes_text bytes.now) }
{
    if bytes.is_empty() {
        return Ok(());
    }
    out.push_str(" ")?;
    put_digits(out, bytes)
}

/// Returns the line of the printed bytes: their number and their hexadecimal digits.
pub fn output_text(alloc: Global, machine: &Machine) -> Result<String, AllocError>
    ensures { IfOk result (λ s. string_bytes s ≡ output_text machine.now) }
{
    let bytes = machine.output();
    let mut text = String::new(alloc);
    put_counted(&mut text, "output ", bytes.len() as u64)?;
    put_bytes(&mut text, bytes)?;
    text.push_str("\n")?;
    Ok(text)
}
