//! Classes and positions in methods, as the debugger writes them.

ghost use Rattle.std.specs.Prelude.{◌≡◌, ◌++◌, [], IfOk, OnOk, codes, unwrap_or};
ghost use Rattle.std.specs.Option.{option_map};
ghost use Rattle.std.specs.String.{string_bytes};
ghost use Rattle.jvms_program.specs.Program.{key_of};
ghost use Rattle.escapes.specs.Keys.{method_text};
ghost use Rattle.machine_text.specs.Places.{class_name_text, place_text};

use escapes::{put_counted, put_method, put_name};
use jvms_program::number::{ClassNumber, MethodNumber};
use program::Program;
use std::alloc::{AllocError, Global};

/// Appends the name of the class of a number. Appends nothing if there is no such class.
fn put_class_name(out: &mut String, program: &Program, class: ClassNumber) -> Result<(), AllocError>
    ensures { OnOk result (string_bytes out.new ≡ string_bytes out.old
        ++ class_name_text program.now class) }
{
    match program.class(class) {
        Some(class) => put_name(out, class.name.as_slice()),
        None => Ok(()),
    }
}

/// Appends the initialisation of the class of a number: `init C`.
pub(crate) fn put_initialisation(
    out: &mut String,
    program: &Program,
    class: ClassNumber,
) -> Result<(), AllocError>
    ensures { OnOk result (string_bytes out.new ≡ string_bytes out.old
        ++ (codes "init " ++ class_name_text program.now class)) }
{
    out.push_str("init ")?;
    put_class_name(out, program, class)
}

/// Appends the key of the method of a number. Appends nothing if there is no such method.
fn put_key(out: &mut String, program: &Program, method: MethodNumber) -> Result<(), AllocError>
    ensures { OnOk result (string_bytes out.new ≡ string_bytes out.old
        ++ unwrap_or (option_map method_text (key_of program.now method)) []) }
{
    match program.key(method)? {
        Some(key) => put_method(out, &key),
        None => Ok(()),
    }
}

/// Appends an instruction of a method: `C.m.D @i`. If there is no memory, part of the text may have been appended.
pub fn put_place(
    out: &mut String,
    program: &Program,
    method: MethodNumber,
    instruction: usize,
) -> Result<(), AllocError>
    ensures { OnOk result (string_bytes out.new ≡ string_bytes out.old
        ++ place_text program.now method instruction) }
{
    put_key(out, program, method)?;
    put_counted(out, " @", instruction as u64)
}

/// Returns the text of an instruction of a method: `C.m.D @i`.
pub fn place_text(
    alloc: Global,
    program: &Program,
    method: MethodNumber,
    instruction: usize,
) -> Result<String, AllocError>
    ensures { IfOk result (λ s. string_bytes s ≡ place_text program.now method instruction) }
{
    let mut text = String::new(alloc);
    put_place(&mut text, program, method, instruction)?;
    Ok(text)
}
