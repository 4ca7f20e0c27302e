//! The code of methods (JVMS 4.7.3).

ghost use Rattle.std.specs.Prelude.{◌≡◌, IfOk, map};
ghost use Rattle.std.specs.Option.{option_map};
ghost use Rattle.jvms_program.specs.Meaning.{catch_of, handler_of, body_of, code_of};

use crate::instruction::instructions_of;
use crate::texts::Texts;
use jvms_file::class_file::{Code, Handler, MethodAttribute};
use jvms_program::attributes::code_of;
use jvms_program::program::{Body, Catch, ExceptionHandler};
use shared_data::items::Items;
use std::alloc::{AllocError, Global};

/// Returns the exceptions that a handler with this catch_type catches: all for 0.
fn catch_of(texts: &Texts, catch_type: u16) -> Result<Catch, AllocError>
    ensures { IfOk result (λ c. c ≡ catch_of texts.now catch_type) }
{
    if catch_type == 0 {
        Ok(Catch::All)
    } else {
        Ok(Catch::Class(texts.class_name(catch_type)?))
    }
}

/// Returns a handler with the class that it catches.
fn handler_of(texts: &Texts, handler: &Handler) -> Result<ExceptionHandler, AllocError>
    ensures { IfOk result (λ h. h ≡ handler_of texts.now handler.now) }
{
    Ok(ExceptionHandler {
        start: handler.start,
        end: handler.end,
        target: handler.target,
        catch: catch_of(texts, handler.catch_type)?,
    })
}

/// Returns the handlers of a method, in the order of its table.
fn handlers_of(
    alloc: Global,
    texts: &Texts,
    table: &[Handler],
) -> Result<Items<ExceptionHandler>, AllocError>
    ensures { IfOk result (λ hs. hs ≡ map (handler_of texts.now) table.now) }
{
    let mut handlers = Vec::with_capacity(alloc, table.len())?;
    for handler in table {
        handlers.push(handler_of(texts, handler)?)?;
    }
    Ok(Items::from_vec(handlers))
}

/// Returns the code of a method, with the named items in place of pool numbers.
fn body_of(alloc: Global, texts: &Texts, code: &Code) -> Result<Body, AllocError>
    ensures { IfOk result (λ b. b ≡ body_of texts.now code.now) }
{
    Ok(Body {
        max_stack: code.max_stack,
        max_locals: code.max_locals,
        instructions: instructions_of(alloc, texts, code.insns.as_slice())?,
        handlers: handlers_of(alloc, texts, code.handlers.as_slice())?,
    })
}

/// Returns the code of a method that has these attributes, if one is Code.
pub(crate) fn body_among(
    alloc: Global,
    texts: &Texts,
    attributes: &[MethodAttribute],
) -> Result<Option<Body>, AllocError>
    ensures { IfOk result (λ b. b ≡ option_map (body_of texts.now) (code_of attributes.now)) }
{
    match code_of(attributes) {
        Some(code) => Ok(Some(body_of(alloc, texts, code)?)),
        None => Ok(None),
    }
}
