//! Judges the operands that name methods (JVMS 6.5 `invokevirtual`, `invokespecial`, `invokestatic`,
//! `invokeinterface`).

ghost use Rattle.std.specs.Prelude.{◌≡◌, true, [], Ok, Some, slice_get};
ghost use Rattle.std.specs.Option.{option_map};
ghost use Rattle.jvms_file.specs.Names.{is_method_name};
ghost use Rattle.jvms_file.specs.Members.{is_method_descriptor_for};
ghost use Rattle.jvms_file.specs.Instructions.{interface_count};
ghost use Rattle.jasmin.specs.Lexing.{lexemes};
ghost use Rattle.jasmin.specs.Judgements.{map_ok, unless};
ghost use Rattle.jasmin.specs.Operands.{word_if, is_member, before_descriptor, descriptor_of};
ghost use Rattle.jasmin.specs.Statements.{named_method, method_at, is_count, counted_at, operands_after_method, invoke_operation};
ghost use Rattle.jasmin_instructions.specs.Saying.{Says};
ghost use Rattle.jasmin_instructions.specs.Views.{two_texts};

use crate::descriptors::is_method_descriptor_for;
use crate::fault::LineFault;
use crate::parts::{two_words, two_words_unless};
use descriptor::{is_invocable_name, method_units};
use jasmin::source::{MethodName, Operation};
use jasmin::statement::Flaw;
use jasmin::token::{Lexeme, Token};
use jasmin_operands::{
    Judged, before_descriptor, class_of, descriptor_of, exactly, is_member_method, judge_test,
    name_of, operand, u8_at, unless, word_at, word_or_none,
};
use jvms_file::insn::Invoke;
use shared_data::boxed::Boxed;
use shared_data::texts::copied_text;
use std::alloc::Global;

/// Judges `class/name` in the word of a method.
fn method_member(word: &[u16]) -> Judged<&[u16]>
    ensures { map_ok (λ w. w.now) result
        ≡ word_if (is_member is_method_name) Flaw.Name (Ok (before_descriptor word.now)) }
{
    let member = before_descriptor(word);
    judge_test(is_member_method(member), Flaw::Name)?;
    Ok(member)
}

/// Judges the descriptor in the word of a method.
fn method_descriptor(word: &[u16]) -> Judged<&[u16]>
    ensures { map_ok (λ w. w.now) result
        ≡ word_if (is_method_descriptor_for true) Flaw.Descriptor (Ok (descriptor_of word.now)) }
{
    let descriptor = descriptor_of(word);
    judge_test(is_method_descriptor_for(true, descriptor), Flaw::Descriptor)?;
    Ok(descriptor)
}

/// Judges `class/name` and the descriptor in the word of a method that the instruction may invoke.
fn named_method(how: Invoke, word: &[u16]) -> Judged<(&[u16], &[u16])>
    ensures { map_ok two_texts result ≡ named_method how word.now }
{
    let is_invocable = is_invocable_name(how, name_of(before_descriptor(word)));
    two_words_unless(
        two_words(method_member(word), method_descriptor(word)),
        judge_test(is_invocable, Flaw::Operand),
    )
}

/// Judges a place that requires `class/name` of a method, directly followed by its descriptor.
fn method_at(how: Invoke, lexeme: Option<&Lexeme>) -> Judged<(&[u16], &[u16])>
    ensures { map_ok two_texts result ≡ method_at how (option_map (λ l. l.now) lexeme.entry) }
{
    named_method(how, word_at(lexeme)?)
}

/// Decides whether a count is the number of units of the arguments with the object (JVMS 4.3.3). Any count passes if
/// the descriptor is malformed.
fn is_count(count: u8, descriptor: &[u16]) -> bool
    ensures { result ≡ is_count count (interface_count (Some ([], descriptor.now))) }
{
    match method_units(descriptor) {
        Some(units) => usize::from(count) == units + 1,
        None => true,
    }
}

/// Judges the count of an `invokeinterface`, which is that of its descriptor.
fn counted_at(descriptor: &[u16], count: Judged<u8>) -> Judged<()>
    ensures { result ≡ counted_at descriptor.now count }
{
    judge_test(is_count(count?, descriptor), Flaw::Operand)
}

/// Judges what follows the method: the count of an `invokeinterface`, or nothing.
fn operands_after_method(how: Invoke, tokens: &[Token]) -> Judged<()>
    ensures { result ≡ operands_after_method how (lexemes tokens.now) }
{
    match how {
        Invoke::Interface => {
            let descriptor = descriptor_of(word_or_none(operand(tokens, 0)));
            unless(
                counted_at(descriptor, u8_at(operand(tokens, 1))),
                exactly(2, tokens),
            )
        }
        Invoke::Virtual | Invoke::Special | Invoke::Static => exactly(1, tokens),
    }
}

/// Judges all operands of an invoke instruction, and returns `class/name` and the descriptor.
fn method_parts(how: Invoke, tokens: &[Token]) -> Judged<(&[u16], &[u16])>
    ensures { map_ok two_texts result ≡ unless (method_at how (slice_get (lexemes tokens.now) 0))
        (operands_after_method how (lexemes tokens.now)) }
{
    two_words_unless(
        method_at(how, operand(tokens, 0)),
        operands_after_method(how, tokens),
    )
}

/// Judges the operands of JVMS 6.5 `invokevirtual`, `invokespecial`, `invokestatic`, `invokeinterface`.
///
/// # Errors
///
/// Returns the fault of the least number, or `Memory` if memory ran out.
#[tactic(auto, unfolding(jasmin::specs::Statements::invoke_operation))]
pub(crate) fn invoke_operation(
    alloc: Global,
    how: Invoke,
    tokens: &[Token],
) -> Result<Operation, LineFault>
    ensures { Says result (invoke_operation how (lexemes tokens.now)) }
{
    let (member, descriptor) = method_parts(how, tokens)?;
    let name = MethodName {
        class: copied_text(alloc, class_of(member))?,
        name: copied_text(alloc, name_of(member))?,
        descriptor: copied_text(alloc, descriptor)?,
    };
    Ok(Operation::Invoke(how, Boxed::new(alloc, name)?))
}
