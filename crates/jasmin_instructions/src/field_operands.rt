//! Judges the operands that name fields (JVMS 6.5 `getstatic`, `putstatic`, `getfield`, `putfield`).

ghost use Rattle.std.specs.Prelude.{◌≡◌, slice_get};
ghost use Rattle.std.specs.Option.{option_map};
ghost use Rattle.jvms_file.specs.Names.{is_name};
ghost use Rattle.jasmin.specs.Lexing.{lexemes};
ghost use Rattle.jasmin.specs.Judgements.{both, map_ok, unless};
ghost use Rattle.jasmin.specs.Operands.{exactly, word_if, word_at, is_member, field_descriptor_at};
ghost use Rattle.jasmin.specs.Statements.{field_operation};
ghost use Rattle.jasmin_instructions.specs.Saying.{Says};
ghost use Rattle.jasmin_instructions.specs.Views.{two_texts};

use crate::fault::LineFault;
use crate::parts::{two_words, two_words_unless};
use jasmin::source::{FieldName, Operation};
use jasmin::statement::Flaw;
use jasmin::token::{Lexeme, Token};
use jasmin_operands::{
    Judged, class_of, exactly, field_descriptor_at, is_member_field, judge_test, name_of, operand,
    word_at,
};
use jvms_file::insn::FieldUse;
use shared_data::boxed::Boxed;
use shared_data::texts::copied_text;
use std::alloc::Global;

/// Judges a place that requires `class/name` of a field.
fn member_at(lexeme: Option<&Lexeme>) -> Judged<&[u16]>
    ensures { map_ok (λ w. w.now) result
        ≡ word_if (is_member is_name) Flaw.Name (word_at (option_map (λ l. l.now) lexeme.entry)) }
{
    let word = word_at(lexeme)?;
    judge_test(is_member_field(word), Flaw::Name)?;
    Ok(word)
}

/// Judges `class/name` of a field, and the descriptor that follows it.
fn field_at(tokens: &[Token]) -> Judged<(&[u16], &[u16])>
    ensures { let ts = lexemes tokens.now in
        map_ok two_texts result
        ≡ both (word_if (is_member is_name) Flaw.Name (word_at (slice_get ts 0)))
        (field_descriptor_at (slice_get ts 1)) }
{
    two_words(
        member_at(operand(tokens, 0)),
        field_descriptor_at(operand(tokens, 1)),
    )
}

/// Judges `class/name` of a field and its descriptor, the only operands.
fn field_parts(tokens: &[Token]) -> Judged<(&[u16], &[u16])>
    ensures { let ts = lexemes tokens.now in
        map_ok two_texts result
        ≡ unless (both (word_if (is_member is_name) Flaw.Name (word_at (slice_get ts 0)))
        (field_descriptor_at (slice_get ts 1))) (exactly 2 ts) }
{
    two_words_unless(field_at(tokens), exactly(2, tokens))
}

/// Judges the operands of JVMS 6.5 `getstatic`, `putstatic`, `getfield`, `putfield`.
///
/// # Errors
///
/// Returns the fault of the least number, or `Memory` if memory ran out.
#[tactic(auto, unfolding(jasmin::specs::Statements::field_operation))]
pub(crate) fn field_operation(
    alloc: Global,
    how: FieldUse,
    tokens: &[Token],
) -> Result<Operation, LineFault>
    ensures { Says result (field_operation how (lexemes tokens.now)) }
{
    let (member, descriptor) = field_parts(tokens)?;
    let name = FieldName {
        class: copied_text(alloc, class_of(member))?,
        name: copied_text(alloc, name_of(member))?,
        descriptor: copied_text(alloc, descriptor)?,
    };
    Ok(Operation::Field(how, Boxed::new(alloc, name)?))
}
