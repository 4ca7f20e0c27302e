//! Writes the lines of fields and methods.

ghost use Rattle.std.specs.Prelude.{◌≡◌, ◌++◌, ◌∷◌, [], map, OnOk, IfOk, true, codes};
ghost use Rattle.std.specs.Fmt.{decimal};
ghost use Rattle.std.specs.List.{flat_map};
ghost use Rattle.jasmin.specs.Denote.{has_code};
ghost use Rattle.jasmin.specs.Operands.{field_words, method_words};
ghost use Rattle.listing_spec.specs.Printed.{join_words, access_names, value_words, field_line, caught_word, catch_line, throws_line, body_lines, method_text};
ghost use Rattle.source_text.specs.Words.{units_in};
ghost use Rattle.source_text.specs.Lines.{with_lf, text_of_lines};

use crate::access::{push_field_words, push_method_words, push_word};
use crate::code::put_code;
use crate::word::{Word, put_line};
use code_bytes::has_code;
use jasmin::source::{CatchLine, Caught, FieldConstant, FieldLine, MethodLines};
use shared_data::shared::Text;
use std::alloc::{AllocError, Global};

/// Appends the words of a field's constant.
fn push_value<'a>(
    words: &mut Vec<Word<'a>>,
    value: &'a Option<FieldConstant>,
) -> Result<(), AllocError>
    ensures { OnOk result
        (map units_in words.new.items ≡ map units_in words.old.items ++ value_words value.now) }
{
    let value = match value {
        None => return Ok(()),
        Some(FieldConstant::Integer(number)) => Word::Number(i64::from(*number)),
        Some(FieldConstant::Long(number)) => Word::Number(*number),
        Some(FieldConstant::String(text)) => Word::Quoted(text.as_slice()),
    };
    push_word(words, Word::Ascii("="))?;
    push_word(words, value)
}

/// Returns the words of a field's line.
fn words_of_field<'a>(alloc: Global, field: &'a FieldLine) -> Result<Vec<Word<'a>>, AllocError>
    ensures { IfOk result (λ words. map units_in words.items
        ≡ codes ".field" ∷ access_names field_words field.now.access
        ++ (field.now.name ∷ field.now.descriptor ∷ value_words field.now.constant)) }
{
    let mut words = Vec::new(alloc);
    push_word(&mut words, Word::Ascii(".field"))?;
    push_field_words(&mut words, field.access)?;
    push_word(&mut words, Word::Name(field.name.as_slice()))?;
    push_word(&mut words, Word::Name(field.descriptor.as_slice()))?;
    push_value(&mut words, &field.constant)?;
    Ok(words)
}

/// Appends the line of a field.
#[tactic(auto, unfolding(listing_spec::specs::Printed::field_line))]
fn put_field(alloc: Global, out: &mut Vec<u16>, field: &FieldLine) -> Result<(), AllocError>
    ensures { OnOk result (out.new.items ≡ out.old.items ++ with_lf (field_line field.now)) }
{
    let words = words_of_field(alloc, field)?;
    put_line(alloc, out, &words)
}

/// Appends the lines of fields.
pub(crate) fn put_fields(
    alloc: Global,
    out: &mut Vec<u16>,
    fields: &[FieldLine],
) -> Result<(), AllocError>
    ensures { OnOk result
        (out.new.items ≡ out.old.items ++ flat_map (λ f. with_lf (field_line f)) fields.now) }
{
    for field in fields {
        put_field(alloc, out, field)?;
    }
    Ok(())
}

/// Returns the words of a method's first line.
fn words_of_method<'a>(alloc: Global, method: &'a MethodLines) -> Result<Vec<Word<'a>>, AllocError>
    ensures { IfOk result (λ words. map units_in words.items
        ≡ codes ".method" ∷ access_names method_words method.now.access
        ++ (method.now.name ++ method.now.descriptor) ∷ []) }
{
    let mut words = Vec::new(alloc);
    push_word(&mut words, Word::Ascii(".method"))?;
    push_method_words(&mut words, method.access)?;
    let name = method.name.as_slice();
    push_word(
        &mut words,
        Word::Described(name, method.descriptor.as_slice()),
    )?;
    Ok(words)
}

/// Appends the line of an exception that a method throws.
fn put_thrown(alloc: Global, out: &mut Vec<u16>, name: &Text) -> Result<(), AllocError>
    ensures { OnOk result (out.new.items ≡ out.old.items ++ with_lf (throws_line name.now)) }
{
    let name = Word::Name(name.as_slice());
    put_line(alloc, out, &[Word::Ascii(".throws"), name])
}

/// Appends the lines of the exceptions that a method throws.
fn put_throws(alloc: Global, out: &mut Vec<u16>, names: &[Text]) -> Result<(), AllocError>
    ensures { OnOk result
        (out.new.items ≡ out.old.items ++ flat_map (λ name. with_lf (throws_line name)) names.now) }
{
    for name in names {
        put_thrown(alloc, out, name)?;
    }
    Ok(())
}

/// Returns the word of what a handler catches.
fn caught_word(caught: &Caught) -> Word<'_>
    ensures { units_in result ≡ caught_word caught.now }
{
    match caught {
        Caught::All => Word::Ascii("all"),
        Caught::Class(name) => Word::Name(name.as_slice()),
    }
}

/// Appends the line of a handler.
fn put_catch(alloc: Global, out: &mut Vec<u16>, line: &CatchLine) -> Result<(), AllocError>
    ensures { OnOk result (out.new.items ≡ out.old.items ++ with_lf (catch_line line.now)) }
{
    put_line(
        alloc,
        out,
        &[
            Word::Ascii(".catch"),
            caught_word(&line.caught),
            Word::Ascii("from"),
            Word::Name(line.from.as_slice()),
            Word::Ascii("to"),
            Word::Name(line.to.as_slice()),
            Word::Ascii("using"),
            Word::Name(line.using.as_slice()),
        ],
    )
}

/// Appends the lines of handlers.
fn put_catches(alloc: Global, out: &mut Vec<u16>, catches: &[CatchLine]) -> Result<(), AllocError>
    ensures { OnOk result
        (out.new.items ≡ out.old.items ++ flat_map (λ c. with_lf (catch_line c)) catches.now) }
{
    for line in catches {
        put_catch(alloc, out, line)?;
    }
    Ok(())
}

/// Appends the lines of a method's limits.
fn put_limits(
    alloc: Global,
    out: &mut Vec<u16>,
    max_stack: u16,
    max_locals: u16,
) -> Result<(), AllocError>
    ensures { OnOk result (out.new.items
        ≡ out.old.items
        ++ (with_lf (join_words (codes ".limit" ∷ codes "stack" ∷ decimal max_stack ∷ []))
        ++ with_lf (join_words (codes ".limit" ∷ codes "locals" ∷ decimal max_locals ∷ [])))) }
{
    let stack = Word::Number(i64::from(max_stack));
    let locals = Word::Number(i64::from(max_locals));
    put_line(
        alloc,
        out,
        &[Word::Ascii(".limit"), Word::Ascii("stack"), stack],
    )?;
    put_line(
        alloc,
        out,
        &[Word::Ascii(".limit"), Word::Ascii("locals"), locals],
    )
}

/// Appends the limits, the handlers and the code of a method.
#[tactic(auto, using(crate::proofs::Methods::body_pieces))]
fn put_body(alloc: Global, out: &mut Vec<u16>, method: &MethodLines) -> Result<(), AllocError>
    requires { has_code method.now.name method.now.access ≡ true }
    ensures { OnOk result (out.new.items ≡ out.old.items ++ text_of_lines (body_lines method.now)) }
{
    put_limits(alloc, out, method.max_stack, method.max_locals)?;
    put_catches(alloc, out, method.catches.as_slice())?;
    put_code(alloc, out, method.code.as_slice())
}

/// Appends the limits, the handlers and the code of a method that has code.
#[tactic(auto, using(crate::proofs::Methods::no_body))]
fn put_body_if_any(
    alloc: Global,
    out: &mut Vec<u16>,
    method: &MethodLines,
) -> Result<(), AllocError>
    ensures { OnOk result (out.new.items ≡ out.old.items ++ text_of_lines (body_lines method.now)) }
{
    if has_code(method) {
        put_body(alloc, out, method)
    } else {
        Ok(())
    }
}

/// Appends the lines of a method.
#[tactic(auto, using(crate::proofs::Methods::method_pieces))]
fn put_method(alloc: Global, out: &mut Vec<u16>, method: &MethodLines) -> Result<(), AllocError>
    ensures { OnOk result
        (out.new.items ≡ out.old.items ++ text_of_lines (method_text method.now)) }
{
    let words = words_of_method(alloc, method)?;
    put_line(alloc, out, &words)?;
    put_throws(alloc, out, method.throws.as_slice())?;
    put_body_if_any(alloc, out, method)?;
    put_line(alloc, out, &[Word::Ascii(".end method")])
}

/// Appends the lines of methods.
pub(crate) fn put_methods(
    alloc: Global,
    out: &mut Vec<u16>,
    methods: &[MethodLines],
) -> Result<(), AllocError>
    ensures { OnOk result (out.new.items
        ≡ out.old.items ++ flat_map (λ m. text_of_lines (method_text m)) methods.now) }
{
    for method in methods {
        put_method(alloc, out, method)?;
    }
    Ok(())
}
