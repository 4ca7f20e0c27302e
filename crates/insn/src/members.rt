//! The instructions that name a field, a method or a class (JVMS 6.5 getfield, invokevirtual, new).

ghost use Rattle.std.specs.Prelude.{◌≡◌};
ghost use Rattle.std.specs.Option.{option_copied, option_map, option_and_then};
ghost use Rattle.jvms_file.specs.Instructions.{passes, is_field, field_insn, method_numbers, invoked_names, is_invocable, interface_count, interface_operands, after_invoke, invoke_insn, is_usable_class, names_usable, class_insn};
ghost use Rattle.jvms_file.specs.declared.insn.Invoke.TheVariants.{Interface};
ghost use Rattle.jvms_file.specs.Reading.{Gives};

use const_pool::{Pool, ScannedPool};
use descriptor::{dimensions_of, is_array_name, is_invocable_name};
use file_bytes::{u1_at, u2_at, want};
use jvms_file::class_file::Constant;
use jvms_file::fault::{ClassFault, ReadError};
use jvms_file::insn::{ClassUse, FieldUse, Insn, Invoke};

/// Decides whether an entry is a field's.
fn is_field(found: Option<&Constant>) -> bool
    ensures { result ≡ passes is_field (option_copied found.entry) }
{
    matches!(
        found,
        Some(Constant::Field {
            class: _,
            name_and_type: _,
        })
    )
}

/// Reads the operand of an instruction on a field, and returns the instruction with the bytes after it (JVMS 6.5
/// getstatic, putstatic, getfield, putfield).
pub(crate) fn field<'a>(
    cut: ClassFault,
    pool: &Pool,
    how: FieldUse,
    bytes: &'a [u8],
) -> Result<(Insn, &'a [u8]), ReadError>
    ensures { Gives (λ x. (x.0, x.1.now)) result (field_insn cut pool.now how bytes.now) }
{
    let (number, rest) = u2_at(cut, bytes)?;
    want(is_field(pool.entry(number)), cut)?;
    Ok((Insn::Field(how, number), rest))
}

/// Decides whether an instruction may use a class of this name.
fn is_usable_class(how: ClassUse, name: &[u16]) -> bool
    ensures { result ≡ is_usable_class how name.now }
{
    match how {
        ClassUse::New => !is_array_name(name),
        ClassUse::NewArray => dimensions_of(name) < 255,
        ClassUse::CheckCast | ClassUse::InstanceOf => true,
    }
}

/// Decides whether there is a class and an instruction may use it.
fn names_usable(how: ClassUse, class: Option<&[u16]>) -> bool
    ensures { result ≡ names_usable how (option_map (λ t. t.now) class.entry) }
{
    match class {
        Some(name) => is_usable_class(how, name),
        None => false,
    }
}

/// Reads the operand of an instruction on a class, and returns the instruction with the bytes after it (JVMS 6.5 new,
/// anewarray, checkcast, instanceof).
pub(crate) fn class<'a>(
    cut: ClassFault,
    pool: &Pool,
    how: ClassUse,
    bytes: &'a [u8],
) -> Result<(Insn, &'a [u8]), ReadError>
    ensures { Gives (λ x. (x.0, x.1.now)) result (class_insn cut pool.now how bytes.now) }
{
    let (number, rest) = u2_at(cut, bytes)?;
    want(names_usable(how, pool.class_name(number)), cut)?;
    Ok((Insn::Class(how, number), rest))
}

/// Returns the numbers in a method's entry of the kind that the instruction accepts (JVMS 4.9.1).
fn method_numbers(how: Invoke, found: Option<&Constant>) -> Option<(u16, u16)>
    ensures { result ≡ option_and_then (method_numbers how) (option_copied found.entry) }
{
    match found {
        Some(
            Constant::InterfaceMethod {
                class,
                name_and_type,
            },
        ) => match how {
            Invoke::Interface => Some((*class, *name_and_type)),
            Invoke::Virtual | Invoke::Special | Invoke::Static => None,
        },
        Some(
            Constant::Method {
                class,
                name_and_type,
            },
        ) => match how {
            Invoke::Interface => None,
            Invoke::Virtual | Invoke::Special | Invoke::Static => Some((*class, *name_and_type)),
        },
        _ => None,
    }
}

/// Returns the name and the descriptor of the method that an instruction calls.
fn invoked_names(pool: &Pool, how: Invoke, number: u16) -> Option<(&[u16], &[u16])>
    ensures { option_map (λ x. (x.0.now, x.1.now)) result ≡ invoked_names pool.now how number }
{
    match method_numbers(how, pool.entry(number)) {
        Some((_, name_and_type)) => pool.name_and_type(name_and_type),
        None => None,
    }
}

/// Decides whether there is a method and an instruction may call it.
fn is_invocable(how: Invoke, method: Option<(&[u16], &[u16])>) -> bool
    ensures { result ≡ is_invocable how (option_map (λ x. (x.0.now, x.1.now)) method.entry) }
{
    match method {
        Some((name, _)) => is_invocable_name(how, name),
        None => false,
    }
}

/// Returns the units of the arguments of an interface's method, including the object.
fn interface_units(pool: &ScannedPool, number: u16) -> Option<usize>
    ensures { result ≡ interface_count (invoked_names pool.now Interface number) }
{
    let (_, name_and_type) = method_numbers(Invoke::Interface, pool.pool().entry(number))?;
    let forms = pool.descriptor_forms(name_and_type)?;
    let units = forms.method_units?;
    Some(usize::from(units) + 1)
}

/// Reads the count of argument units and the 0 that end an invokeinterface, and returns the bytes after them.
fn interface_operands(
    cut: ClassFault,
    count: Option<usize>,
    bytes: &[u8],
) -> Result<&[u8], ReadError>
    ensures { Gives (λ x. x.now) result (interface_operands cut count bytes.now) }
{
    match count {
        Some(units) => {
            let (found, rest) = u1_at(cut, bytes)?;
            let (last, behind) = u1_at(cut, rest)?;
            want(usize::from(found) == units && last == 0, cut)?;
            Ok(behind)
        }
        None => Err(ReadError::Fault(cut)),
    }
}

/// Reads the operands after the pool number of a call, and returns the bytes after them.
fn after_invoke<'a>(
    cut: ClassFault,
    pool: &ScannedPool,
    how: Invoke,
    number: u16,
    bytes: &'a [u8],
) -> Result<&'a [u8], ReadError>
    ensures { Gives (λ x. x.now) result
        (after_invoke cut how (invoked_names pool.now how number) bytes.now) }
{
    match how {
        Invoke::Interface => interface_operands(cut, interface_units(pool, number), bytes),
        Invoke::Virtual | Invoke::Special | Invoke::Static => Ok(bytes),
    }
}

/// Reads the operands of a call, and returns the instruction with the bytes after it (JVMS 6.5 invokevirtual,
/// invokespecial, invokestatic, invokeinterface).
pub(crate) fn invoke<'a>(
    cut: ClassFault,
    pool: &ScannedPool,
    how: Invoke,
    bytes: &'a [u8],
) -> Result<(Insn, &'a [u8]), ReadError>
    ensures { Gives (λ x. (x.0, x.1.now)) result (invoke_insn cut pool.now how bytes.now) }
{
    let (number, rest) = u2_at(cut, bytes)?;
    want(
        is_invocable(how, invoked_names(pool.pool(), how, number)),
        cut,
    )?;
    let behind = after_invoke(cut, pool, how, number, rest)?;
    Ok((Insn::Invoke(how, number), behind))
}
