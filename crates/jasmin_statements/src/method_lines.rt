//! Judges `.method` and `.end method`.

ghost use Rattle.std.specs.Prelude.{◌≡◌, ◌||◌, Ok};
ghost use Rattle.jvms_file.specs.Names.{is_method_name, is_initializer_name};
ghost use Rattle.jvms_file.specs.Members.{is_static, is_method_descriptor_for};
ghost use Rattle.jasmin.specs.Lexing.{lexemes};
ghost use Rattle.jasmin.specs.Judgements.{both, map_ok, unless};
ghost use Rattle.jasmin.specs.Operands.{method_words, access_words, word_if, word_at, before_descriptor, descriptor_of};
ghost use Rattle.jasmin.specs.Statements.{is_permitted, method_head_at, but_last, last_of, method_line, end_line};
ghost use Rattle.jasmin_instructions.specs.Saying.{Says};
ghost use Rattle.jasmin_instructions.specs.Views.{two_texts};

use crate::places::{but_last, last_of};
use descriptor::{Flags, is_initializer_name, is_method_name};
use jasmin::statement::{ClassSort, Flaw, Statement};
use jasmin::token::Token;
use jasmin_instructions::{LineFault, is_method_descriptor_for, two_words, two_words_unless};
use jasmin_operands::{
    AccessWords, Judged, access_words, before_descriptor, both, descriptor_of, exactly, flags_in,
    judge_test, keyword_at, operand, word_at,
};
use shared_data::texts::copied_text;
use std::alloc::Global;

/// Decides whether a method of a class of this sort may have these flags. A method of an interface is abstract, except
/// `<clinit>`.
fn is_permitted(sort: ClassSort, access: u16, name: &[u16]) -> bool
    ensures { result ≡ is_permitted sort access name.now }
{
    match sort {
        ClassSort::Class => true,
        ClassSort::Interface => Flags::of_access(access).is_abstract() || is_initializer_name(name),
    }
}

/// Decides whether a method has no object: it is static or `<clinit>`.
fn is_on_none(access: u16, name: &[u16]) -> bool
    ensures { result ≡ (is_static access || is_initializer_name name.now) }
{
    Flags::of_access(access).is_static() || is_initializer_name(name)
}

/// Judges the descriptor of a method with these flags and this name.
fn method_descriptor<'a>(access: u16, name: &[u16], descriptor: &'a [u16]) -> Judged<&'a [u16]>
    ensures { map_ok (λ w. w.now) result ≡ word_if (is_method_descriptor_for (is_static access
        || is_initializer_name name.now)) Flaw.Descriptor (Ok descriptor.now) }
{
    let fits = is_method_descriptor_for(is_on_none(access, name), descriptor);
    judge_test(fits, Flaw::Descriptor)?;
    Ok(descriptor)
}

/// Judges the name in the word of a method.
fn method_name(word: &[u16]) -> Judged<&[u16]>
    ensures { map_ok (λ w. w.now) result
        ≡ word_if is_method_name Flaw.Name (Ok (before_descriptor word.now)) }
{
    let name = before_descriptor(word);
    judge_test(is_method_name(name), Flaw::Name)?;
    Ok(name)
}

/// Judges the name and the descriptor in the word of a method with these flags.
fn named_method(access: u16, word: &[u16]) -> Judged<(&[u16], &[u16])>
    ensures { let name = before_descriptor word.now in
        map_ok two_texts result ≡ both (word_if is_method_name Flaw.Name (Ok name))
        (word_if (is_method_descriptor_for (is_static access || is_initializer_name name))
        Flaw.Descriptor (Ok (descriptor_of word.now))) }
{
    two_words(
        method_name(word),
        method_descriptor(access, before_descriptor(word), descriptor_of(word)),
    )
}

/// Judges the name and the descriptor in the word of a method that a class of this sort may have.
fn permitted_method(sort: ClassSort, access: u16, word: &[u16]) -> Judged<(&[u16], &[u16])>
    ensures { map_ok two_texts result ≡ method_head_at sort access (Ok word.now) }
{
    let is_permitted = is_permitted(sort, access, before_descriptor(word));
    two_words_unless(
        named_method(access, word),
        judge_test(is_permitted, Flaw::Flags),
    )
}

/// Judges the name and the descriptor of a method, if there is a word.
fn method_head_at(sort: ClassSort, access: u16, word: Judged<&[u16]>) -> Judged<(&[u16], &[u16])>
    ensures { map_ok two_texts result
        ≡ method_head_at sort access (map_ok (λ w. w.now) word.entry) }
{
    permitted_method(sort, access, word?)
}

/// Judges the access words, the name and the descriptor of a method, and returns the last two.
fn method_head(sort: ClassSort, access: u16, tokens: &[Token]) -> Judged<(&[u16], &[u16])>
    ensures { map_ok two_texts result
        ≡ unless (method_head_at sort access (word_at (last_of (lexemes tokens.now))))
        (access_words method_words (but_last (lexemes tokens.now))) }
{
    two_words_unless(
        method_head_at(sort, access, word_at(last_of(tokens))),
        access_words(AccessWords::Method, but_last(tokens)),
    )
}

/// Judges `.method ACCESS NAME(PARAMETERS)RESULT`.
#[tactic(auto, unfolding(jasmin::specs::Statements::method_line))]
pub(crate) fn method_line(
    alloc: Global,
    sort: ClassSort,
    tokens: &[Token],
) -> Result<Statement, LineFault>
    ensures { Says result (method_line sort (lexemes tokens.now)) }
{
    let access = flags_in(AccessWords::Method, but_last(tokens));
    let (name, descriptor) = method_head(sort, access, tokens)?;
    Ok(Statement::Method {
        access,
        name: copied_text(alloc, name)?,
        descriptor: copied_text(alloc, descriptor)?,
    })
}

/// Judges `.end method`.
#[tactic(auto, unfolding(jasmin::specs::Statements::end_line))]
pub(crate) fn end_line(tokens: &[Token]) -> Judged<Statement>
    ensures { result ≡ end_line (lexemes tokens.now) }
{
    both(keyword_at("method", operand(tokens, 0)), exactly(1, tokens))?;
    Ok(Statement::EndMethod)
}
