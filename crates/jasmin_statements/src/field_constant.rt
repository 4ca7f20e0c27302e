//! Judges the constant values of fields (JVMS table 4.7.2-A).

ghost use Rattle.std.specs.Prelude.{◌≡◌, IfOk};
ghost use Rattle.std.specs.Option.{option_map};
ghost use Rattle.jasmin.specs.Lexing.{lexemes};
ghost use Rattle.jasmin.specs.Judgements.{map_ok};
ghost use Rattle.jasmin.specs.Statements.{is_long, is_int_type, is_string_type, int_constant, constant_at, constant_in};
ghost use Rattle.jasmin_statements.specs.Views.{constant_of};

use descriptor::is_named;
use jasmin::source::FieldConstant;
use jasmin::statement::Flaw;
use jasmin::token::{Lexeme, Token};
use jasmin_operands::{Judged, exactly, i32_at, i64_at, operand, unless};
use shared_data::texts::copied_text;
use std::alloc::{AllocError, Global};

/// The constant of a field, borrowed from its line.
#[derive(Clone, Copy, Drop)]
pub(crate) enum LentConstant<'a> {
    Integer(i32),
    Long(i64),
    String(&'a [u16]),
}

/// Decides whether a field's type is long.
fn is_long(descriptor: &[u16]) -> bool
    ensures { result ≡ is_long descriptor.now }
{
    is_named(descriptor, "J")
}

/// Decides whether a field's constant is an int.
fn is_int_type(descriptor: &[u16]) -> bool
    ensures { result ≡ is_int_type descriptor.now }
{
    is_named(descriptor, "I")
        || is_named(descriptor, "B")
        || is_named(descriptor, "C")
        || is_named(descriptor, "S")
        || is_named(descriptor, "Z")
}

/// Decides whether a field's type is String.
fn is_string_type(descriptor: &[u16]) -> bool
    ensures { result ≡ is_string_type descriptor.now }
{
    is_named(descriptor, "Ljava/lang/String;")
}

/// Judges a number of 32 bits, the constant of a field of such a type.
fn int_constant<'a>(descriptor: &[u16], number: Judged<i32>) -> Judged<LentConstant<'a>>
    ensures { map_ok constant_of result ≡ int_constant descriptor.now number }
{
    let number = number?;
    if is_int_type(descriptor) {
        Ok(LentConstant::Integer(number))
    } else {
        Err(Flaw::Operand)
    }
}

/// Judges the constant of a field of this type.
fn constant_at<'a>(descriptor: &[u16], lexeme: Option<&'a Lexeme>) -> Judged<LentConstant<'a>>
    ensures { map_ok constant_of result
        ≡ constant_at descriptor.now (option_map (λ l. l.now) lexeme.entry) }
{
    match lexeme {
        Some(Lexeme::Word(_)) if is_long(descriptor) => Ok(LentConstant::Long(i64_at(lexeme)?)),
        Some(Lexeme::Word(_)) => int_constant(descriptor, i32_at(lexeme)),
        Some(Lexeme::Text(units)) if is_string_type(descriptor) => Ok(LentConstant::String(
            units.as_slice(),
        )),
        _ => Err(Flaw::Operand),
    }
}

/// Judges what follows an equals sign, which is exactly one value.
#[tactic(auto, using(jasmin_operands::proofs::Judgements::said_unless))]
pub(crate) fn constant_in<'a>(
    descriptor: &[u16],
    tokens: Option<&'a [Token]>,
) -> Judged<Option<LentConstant<'a>>>
    ensures { map_ok (λ c. option_map constant_of c) result
        ≡ constant_in descriptor.now (option_map (λ ts. lexemes ts.now) tokens.entry) }
{
    match tokens {
        None => Ok(None),
        Some(tokens) => {
            let constant = unless(
                constant_at(descriptor, operand(tokens, 0)),
                exactly(1, tokens),
            )?;
            Ok(Some(constant))
        }
    }
}

/// Returns the constant with its own memory.
fn constant_of(alloc: Global, constant: LentConstant<'_>) -> Result<FieldConstant, AllocError>
    ensures { IfOk result (λ c. c ≡ constant_of constant.entry) }
{
    Ok(match constant {
        LentConstant::Integer(number) => FieldConstant::Integer(number),
        LentConstant::Long(number) => FieldConstant::Long(number),
        LentConstant::String(units) => FieldConstant::String(copied_text(alloc, units)?),
    })
}

/// Returns the constant with its own memory, if there is one.
pub(crate) fn constant_if(
    alloc: Global,
    constant: Option<LentConstant<'_>>,
) -> Result<Option<FieldConstant>, AllocError>
    ensures { IfOk result (λ c. c ≡ option_map constant_of constant.entry) }
{
    match constant {
        Some(constant) => Ok(Some(constant_of(alloc, constant)?)),
        None => Ok(None),
    }
}
