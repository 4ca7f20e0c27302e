//! The component types of `newarray`.

ghost use Rattle.std.specs.Prelude.{◌≡◌};
ghost use Rattle.std.specs.Option.{option_map};
ghost use Rattle.jasmin.specs.Operands.{array_type_of, array_type_at};

use crate::judgement::Judged;
use descriptor::is_text;
use jasmin::statement::Flaw;
use jasmin::token::Lexeme;
use jvms_file::insn::ArrayType;

/// Returns the component type of a word (JVMS table 6.5.newarray-A).
fn array_type_of(word: &[u16]) -> Option<ArrayType>
    ensures { result ≡ array_type_of word.now }
{
    if is_text("boolean", word) {
        Some(ArrayType::Boolean)
    } else if is_text("char", word) {
        Some(ArrayType::Char)
    } else if is_text("float", word) {
        Some(ArrayType::Float)
    } else if is_text("double", word) {
        Some(ArrayType::Double)
    } else if is_text("byte", word) {
        Some(ArrayType::Byte)
    } else if is_text("short", word) {
        Some(ArrayType::Short)
    } else if is_text("int", word) {
        Some(ArrayType::Int)
    } else if is_text("long", word) {
        Some(ArrayType::Long)
    } else {
        None
    }
}

/// Judges a place that requires the component type of a `newarray`.
///
/// # Errors
///
/// Returns `Operand` if there is anything else or nothing.
pub fn array_type_at(lexeme: Option<&Lexeme>) -> Judged<ArrayType>
    ensures { result ≡ array_type_at (option_map (λ l. l.now) lexeme.entry) }
{
    match lexeme {
        Some(Lexeme::Word(units)) => array_type_of(units.as_slice()).ok_or(Flaw::Operand),
        _ => Err(Flaw::Operand),
    }
}
