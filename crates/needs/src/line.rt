//! Writes the line of an instruction that can't run.

ghost use Rattle.std.specs.Prelude.{◌≡◌, ◌++◌, OnOk};
ghost use Rattle.std.specs.Option.{option_map};
ghost use Rattle.std.specs.String.{string_bytes};
ghost use Rattle.needs.specs.Lines.{error_text, hint_text, instruction_text, lack_text, named_text, need_line, need_text, place_text, reason_of, reason_text};

use crate::hint::{hint_of, is_absence, unnamed_hint};
use crate::lack::{Lack, lack_of};
use crate::named::{class_named, member_named};
use escapes::{MethodKey, put_member, put_method, put_name, put_number};
use jvms_program::program::Instruction;
use jvms_program::thrown::Thrown;
use program::Program;
use source_lines::MethodSource;
use std::alloc::AllocError;

/// Returns the name of an error that resolution throws.
fn error_name(error: Thrown) -> &'static str
    ensures { result.now ≡ error_text error }
{
    match error {
        Thrown::NoClassDefFoundError => "NoClassDefFoundError",
        Thrown::NoSuchFieldError => "NoSuchFieldError",
        Thrown::NoSuchMethodError => "NoSuchMethodError",
        Thrown::IncompatibleClassChangeError => "IncompatibleClassChangeError",
        _ => "LinkageError",
    }
}

/// Returns the name of a reason why an instruction can't run.
fn lack_name(lack: Lack) -> &'static str
    ensures { result.now ≡ lack_text lack }
{
    match lack {
        Lack::Unresolved(error) => error_name(error),
        Lack::OutOfProfile => "OutOfProfile",
    }
}

/// Appends what is named, after a space: the class if it is missing, else the member, if there is one.
fn put_named(
    out: &mut String,
    lack: Lack,
    class: Option<&[u16]>,
    member: Option<(&[u16], &[u16])>,
) -> Result<(), AllocError>
    ensures { OnOk result (string_bytes out.new ≡ string_bytes out.old ++ named_text lack
        (option_map (λ c. c.now) class.entry) (option_map (λ m. (m.0.now, m.1.now)) member.entry)) }
{
    let Some(class) = class else {
        return Ok(());
    };
    out.push_str(" ")?;
    match member {
        Some((name, descriptor)) if !is_absence(lack) => put_member(out, class, name, descriptor),
        _ => put_name(out, class),
    }
}

/// Returns the hint why a compiler may have added an instruction.
fn hint_text(lack: Lack, class: Option<&[u16]>, member: Option<(&[u16], &[u16])>) -> &'static str
    ensures { result.now ≡ hint_text lack (option_map (λ c. c.now) class.entry)
        (option_map (λ m. (m.0.now, m.1.now)) member.entry) }
{
    match (class, member) {
        (None, _) => unnamed_hint(lack),
        (Some(class), None) => hint_of(lack, class, &[]),
        (Some(class), Some((name, _))) => hint_of(lack, class, name),
    }
}

/// Appends the reason, with the class and the member that are named.
pub(crate) fn put_reason_of(
    out: &mut String,
    lack: Lack,
    class: Option<&[u16]>,
    member: Option<(&[u16], &[u16])>,
) -> Result<(), AllocError>
    ensures { OnOk result (string_bytes out.new ≡ string_bytes out.old ++ reason_of lack
        (option_map (λ c. c.now) class.entry) (option_map (λ m. (m.0.now, m.1.now)) member.entry)) }
{
    out.push_str(lack_name(lack))?;
    put_named(out, lack, class, member)?;
    out.push_str(hint_text(lack, class, member))
}

/// Appends the reason why an instruction can't run.
fn put_reason(out: &mut String, lack: Lack, instruction: &Instruction) -> Result<(), AllocError>
    ensures { OnOk result
        (string_bytes out.new ≡ string_bytes out.old ++ reason_text lack instruction.now) }
{
    let class = class_named(instruction);
    let member = member_named(instruction);
    put_reason_of(out, lack, class, member)
}

/// Appends the reason why an instruction can't run, after a space. Appends nothing if it can run.
pub fn put_need(
    out: &mut String,
    program: &Program,
    instruction: &Instruction,
) -> Result<(), AllocError>
    ensures { OnOk result (string_bytes out.new ≡ string_bytes out.old
        ++ need_text program.now instruction.now) }
{
    match lack_of(program, instruction) {
        None => Ok(()),
        Some(lack) => {
            out.push_str(" ")?;
            put_reason(out, lack, instruction)
        }
    }
}

/// Appends an instruction of a method: `C.m.D @i`.
fn put_instruction(out: &mut String, method: &MethodKey, place: usize) -> Result<(), AllocError>
    ensures { OnOk result (string_bytes out.new ≡ string_bytes out.old
        ++ instruction_text method.now place) }
{
    put_method(out, method)?;
    out.push_str(" @")?;
    put_number(out, place as u64)?;
    Ok(())
}

/// Appends the place of a method's instruction, and its place in the source.
fn put_place_of(
    out: &mut String,
    source: &MethodSource,
    method: &MethodKey,
    place: usize,
) -> Result<(), AllocError>
    ensures { OnOk result (string_bytes out.new ≡ string_bytes out.old
        ++ place_text source.now.0 source.now.1 method.now place) }
{
    put_instruction(out, method, place)?;
    source.put_place(out, place)?;
    out.push_str(" ")?;
    Ok(())
}

/// Appends the line of a method's instruction that can't run.
pub(crate) fn put_need_line(
    out: &mut String,
    source: &MethodSource,
    method: &MethodKey,
    place: usize,
    instruction: &Instruction,
    lack: Lack,
) -> Result<(), AllocError>
    ensures { OnOk result (string_bytes out.new ≡ string_bytes out.old ++ need_line
        (place_text source.now.0 source.now.1 method.now place) instruction.now lack) }
{
    put_place_of(out, source, method, place)?;
    put_reason(out, lack, instruction)?;
    out.push_str("\n")
}
