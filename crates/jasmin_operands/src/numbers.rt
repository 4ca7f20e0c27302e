//! Judges operands that are numbers.

ghost use Rattle.std.specs.Prelude.{◌≡◌};
ghost use Rattle.std.specs.Option.{option_map};
ghost use Rattle.jasmin.specs.Operands.{number_at, i8_at, i16_at, i32_at, i64_at, u8_at, u16_at};

use crate::judgement::Judged;
use crate::numerals::number_of;
use jasmin::statement::Flaw;
use jasmin::token::Lexeme;

/// Judges a place that requires a number within the bounds.
fn number_at(least: i64, most: i64, lexeme: Option<&Lexeme>) -> Judged<i64>
    ensures { result ≡ number_at least most (option_map (λ l. l.now) lexeme.entry) }
{
    match lexeme {
        Some(Lexeme::Word(units)) => match number_of(units.as_slice()) {
            Some(number) if least <= number && number <= most => Ok(number),
            _ => Err(Flaw::Number),
        },
        Some(_) => Err(Flaw::Number),
        None => Err(Flaw::Operand),
    }
}

/// Judges a place that requires a signed number of 8 bits.
///
/// # Errors
///
/// Returns `Operand` if there is no token, and `Number` if the token is no number or doesn't fit.
pub fn i8_at(lexeme: Option<&Lexeme>) -> Judged<i8>
    ensures { result ≡ i8_at (option_map (λ l. l.now) lexeme.entry) }
{
    let number = number_at(i64::from(i8::MIN), i64::from(i8::MAX), lexeme)?;
    Ok(number as i8)
}

/// Judges a place that requires a signed number of 16 bits.
///
/// # Errors
///
/// Returns `Operand` if there is no token, and `Number` if the token is no number or doesn't fit.
pub fn i16_at(lexeme: Option<&Lexeme>) -> Judged<i16>
    ensures { result ≡ i16_at (option_map (λ l. l.now) lexeme.entry) }
{
    let number = number_at(i64::from(i16::MIN), i64::from(i16::MAX), lexeme)?;
    Ok(number as i16)
}

/// Judges a place that requires a signed number of 32 bits.
///
/// # Errors
///
/// Returns `Operand` if there is no token, and `Number` if the token is no number or doesn't fit.
pub fn i32_at(lexeme: Option<&Lexeme>) -> Judged<i32>
    ensures { result ≡ i32_at (option_map (λ l. l.now) lexeme.entry) }
{
    let number = number_at(i64::from(i32::MIN), i64::from(i32::MAX), lexeme)?;
    Ok(number as i32)
}

/// Judges a place that requires a signed number of 64 bits.
///
/// # Errors
///
/// Returns `Operand` if there is no token, and `Number` if the token is no number or doesn't fit.
pub fn i64_at(lexeme: Option<&Lexeme>) -> Judged<i64>
    ensures { result ≡ i64_at (option_map (λ l. l.now) lexeme.entry) }
{
    number_at(i64::MIN, i64::MAX, lexeme)
}

/// Judges a place that requires an unsigned number of 8 bits.
///
/// # Errors
///
/// Returns `Operand` if there is no token, and `Number` if the token is no number or doesn't fit.
pub fn u8_at(lexeme: Option<&Lexeme>) -> Judged<u8>
    ensures { result ≡ u8_at (option_map (λ l. l.now) lexeme.entry) }
{
    let number = number_at(0, i64::from(u8::MAX), lexeme)?;
    Ok(number as u8)
}

/// Judges a place that requires an unsigned number of 16 bits.
///
/// # Errors
///
/// Returns `Operand` if there is no token, and `Number` if the token is no number or doesn't fit.
pub fn u16_at(lexeme: Option<&Lexeme>) -> Judged<u16>
    ensures { result ≡ u16_at (option_map (λ l. l.now) lexeme.entry) }
{
    let number = number_at(0, i64::from(u16::MAX), lexeme)?;
    Ok(number as u16)
}
