//! Judges the operands that name classes (JVMS 6.5 `new`, `anewarray`, `checkcast`, `instanceof`, `multianewarray`).

ghost use Rattle.std.specs.Prelude.{◌≡◌, Some, slice_get};
ghost use Rattle.jvms_file.specs.Instructions.{is_usable_class, is_dimensions};
ghost use Rattle.jasmin.specs.Lexing.{lexemes};
ghost use Rattle.jasmin.specs.Judgements.{judge_test, both, map_ok, unless};
ghost use Rattle.jasmin.specs.Operands.{exactly, class_at, u8_at};
ghost use Rattle.jasmin.specs.Statements.{word_or_none, is_usable_word, class_operation, dimensions_at, multi_new_array_operation};
ghost use Rattle.jasmin_instructions.specs.Saying.{Says};

use crate::fault::LineFault;
use crate::parts::word_unless;
use descriptor::{dimensions_of, is_array_name, is_class_entry_name};
use jasmin::source::Operation;
use jasmin::statement::Flaw;
use jasmin::token::Token;
use jasmin_operands::{
    Judged, both, class_at, exactly, judge_test, operand, u8_at, unless, word_or_none,
};
use jvms_file::insn::ClassUse;
use shared_data::texts::copied_text;
use std::alloc::Global;

/// The most dimensions of a class that `anewarray` takes (JVMS 6.5 `anewarray`).
const MOST_DIMENSIONS: usize = 254;

/// Decides whether an instruction takes a class of this name.
fn is_usable_class(how: ClassUse, name: &[u16]) -> bool
    ensures { result ≡ is_usable_class how name.now }
{
    match how {
        ClassUse::New => !is_array_name(name),
        ClassUse::NewArray => dimensions_of(name) <= MOST_DIMENSIONS,
        ClassUse::CheckCast | ClassUse::InstanceOf => true,
    }
}

/// Decides whether a word may name a class that the instruction takes. A malformed name passes for all but `new`.
fn is_usable_word(how: ClassUse, word: &[u16]) -> bool
    ensures { result ≡ is_usable_word how word.now }
{
    match how {
        ClassUse::New => is_usable_class(how, word),
        ClassUse::NewArray | ClassUse::CheckCast | ClassUse::InstanceOf => {
            !is_class_entry_name(word) || is_usable_class(how, word)
        }
    }
}

/// Judges the class of an instruction, its only operand.
fn class_parts(how: ClassUse, tokens: &[Token]) -> Judged<&[u16]>
    ensures { let ts = lexemes tokens.now in
        map_ok (λ w. w.now) result ≡ unless (unless (class_at (slice_get ts 0))
        (judge_test (is_usable_word how (word_or_none (slice_get ts 0))) Flaw.Operand))
        (exactly 1 ts) }
{
    let is_usable = is_usable_word(how, word_or_none(operand(tokens, 0)));
    let class = word_unless(
        class_at(operand(tokens, 0)),
        judge_test(is_usable, Flaw::Operand),
    );
    word_unless(class, exactly(1, tokens))
}

/// Judges the operand of JVMS 6.5 `new`, `anewarray`, `checkcast`, `instanceof`.
///
/// # Errors
///
/// Returns the fault of the least number, or `Memory` if memory ran out.
#[tactic(auto, unfolding(jasmin::specs::Statements::class_operation))]
pub(crate) fn class_operation(
    alloc: Global,
    how: ClassUse,
    tokens: &[Token],
) -> Result<Operation, LineFault>
    ensures { Says result (class_operation how (lexemes tokens.now)) }
{
    let name = class_parts(how, tokens)?;
    Ok(Operation::Class(how, copied_text(alloc, name)?))
}

/// Decides whether `count` dimensions are allowed for a class of this name: at least one, and at most those of the
/// class (JVMS 6.5 `multianewarray`).
fn is_dimensions(count: u8, name: &[u16]) -> bool
    ensures { result ≡ is_dimensions count (Some name.now) }
{
    count > 0 && usize::from(count) <= dimensions_of(name)
}

/// Judges the dimensions of a `multianewarray`.
fn dimensions_at(name: &[u16], count: Judged<u8>) -> Judged<u8>
    ensures { result ≡ dimensions_at name.now count }
{
    let count = count?;
    if is_dimensions(count, name) {
        Ok(count)
    } else {
        Err(Flaw::Operand)
    }
}

/// Judges the second operand of a `multianewarray`, the number of dimensions.
fn dimensions(tokens: &[Token]) -> Judged<u8>
    ensures { let ts = lexemes tokens.now in
        result ≡ dimensions_at (word_or_none (slice_get ts 0)) (u8_at (slice_get ts 1)) }
{
    dimensions_at(word_or_none(operand(tokens, 0)), u8_at(operand(tokens, 1)))
}

/// Judges the class and the dimensions of a `multianewarray`.
#[tactic(auto, using(jasmin_operands::proofs::Judgements::said_both))]
fn multi_at(tokens: &[Token]) -> Judged<(&[u16], u8)>
    ensures { let ts = lexemes tokens.now in
        map_ok (λ p. (p.0.now, p.1)) result ≡ both (class_at (slice_get ts 0))
        (dimensions_at (word_or_none (slice_get ts 0)) (u8_at (slice_get ts 1))) }
{
    both(class_at(operand(tokens, 0)), dimensions(tokens))
}

/// Judges the class and the dimensions of a `multianewarray`, its only operands.
#[tactic(auto, using(jasmin_operands::proofs::Judgements::said_unless))]
fn multi_parts(tokens: &[Token]) -> Judged<(&[u16], u8)>
    ensures { let ts = lexemes tokens.now in
        map_ok (λ p. (p.0.now, p.1)) result ≡ unless (both (class_at (slice_get ts 0))
        (dimensions_at (word_or_none (slice_get ts 0)) (u8_at (slice_get ts 1)))) (exactly 2 ts) }
{
    unless(multi_at(tokens), exactly(2, tokens))
}

/// Judges the operands of JVMS 6.5 `multianewarray`.
///
/// # Errors
///
/// Returns the fault of the least number, or `Memory` if memory ran out.
#[tactic(auto, unfolding(jasmin::specs::Statements::multi_new_array_operation))]
pub(crate) fn multi_new_array_operation(
    alloc: Global,
    tokens: &[Token],
) -> Result<Operation, LineFault>
    ensures { Says result (multi_new_array_operation (lexemes tokens.now)) }
{
    let (name, dimensions) = multi_parts(tokens)?;
    Ok(Operation::MultiNewArray(copied_text(alloc, name)?, dimensions))
}
