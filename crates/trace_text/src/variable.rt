//! Writes and reads the variables of items.

ghost use Rattle.std.specs.Prelude.{◌≡◌, ◌++◌, OnOk, OnErr, IfOk, MatchOption};
ghost use Rattle.std.specs.Io.{StartsWith};
ghost use Rattle.std.specs.String.{string_bytes};
ghost use Rattle.escapes.specs.Readings.{IsReadAs};
ghost use Rattle.trace_text.specs.Items.{IsVariable, variable_text};
ghost use Rattle.trace_text.specs.Parts.{IsVariableWith};

use crate::members::Keys;
use crate::number::number_of;
use escapes::{cut, dots_in, put_field, put_number};
use jvms_machine::trace::Variable;
use std::alloc::AllocError;

const DOT: u8 = b'.';

const OPEN: u8 = b'[';

const CLOSE: u8 = b']';

/// Appends an element to a text: `R[i]`. On an error a part of it may have been appended.
fn put_element(out: &mut String, reference: u32, index: u32) -> Result<(), AllocError>
    ensures exact { OnOk result (string_bytes out.new
        ≡ string_bytes out.old ++ variable_text (Variable.Element reference index)) }
    ensures appended { OnErr result (StartsWith (string_bytes out.new) (string_bytes out.old)) }
{
    put_number(out, u64::from(reference))?;
    out.push_str("[")?;
    put_number(out, u64::from(index))?;
    out.push_str("]")
}

/// Appends a variable to a text: `R.C.x.D`, `C.x.D` or `R[i]`. On an error a part of it may have been appended.
pub(crate) fn put_variable(out: &mut String, variable: &Variable) -> Result<(), AllocError>
    ensures exact { OnOk result
        (string_bytes out.new ≡ string_bytes out.old ++ variable_text variable.now) }
    ensures appended { OnErr result (StartsWith (string_bytes out.new) (string_bytes out.old)) }
{
    match variable {
        Variable::Instance { reference, field } => {
            put_number(out, u64::from(*reference))?;
            out.push_str(".")?;
            put_field(out, field)
        }
        Variable::Static { field } => put_field(out, field),
        Variable::Element { reference, index } => put_element(out, *reference, *index),
    }
}

/// Reads an element, `R[i]`, from a text without dots.
fn element_of(text: &[u8]) -> Option<Variable>
    ensures { IsReadAs (IsVariableWith 0) variable_text text.now result }
{
    let (reference, behind) = cut(text, OPEN)?;
    let (index, rest) = cut(behind, CLOSE)?;
    if !rest.is_empty() {
        return None;
    }
    let reference = number_of(reference)?;
    let index = number_of(index)?;
    Some(Variable::Element { reference, index })
}

/// Reads a static field, `C.x.D`, from a text with two dots.
fn static_of<'t>(keys: &mut Keys<'t>, text: &'t [u8]) -> Result<Option<Variable>, AllocError>
    ensures { IfOk result (IsReadAs (IsVariableWith 2) variable_text text.now) }
{
    match keys.fields.read(text)? {
        Some(field) => Ok(Some(Variable::Static { field })),
        None => Ok(None),
    }
}

/// Reads an instance field, `R.C.x.D`, from a text with three dots.
fn instance_of<'t>(keys: &mut Keys<'t>, text: &'t [u8]) -> Result<Option<Variable>, AllocError>
    ensures { IfOk result (IsReadAs (IsVariableWith 3) variable_text text.now) }
{
    let Some((reference, field)) = cut(text, DOT) else {
        return Ok(None);
    };
    let Some(reference) = number_of(reference) else {
        return Ok(None);
    };
    match keys.fields.read(field)? {
        Some(field) => Ok(Some(Variable::Instance { reference, field })),
        None => Ok(None),
    }
}

/// Decides whether a text begins with a digit, as instance fields and elements do.
fn begins_with_digit(text: &[u8]) -> bool {
    matches!(text, [b'0'..=b'9', ..])
}

/// Fast path of `variable_of`: returns the static field if the text was read before, else mostly `None`.
fn known_static<'t>(keys: &Keys<'t>, text: &[u8]) -> Result<Option<Variable>, AllocError>
    ensures { IfOk result
        (λ o. MatchOption o (Unit {0}) (λ v. IsVariable v × (text.now ≡ variable_text v))) }
{
    if begins_with_digit(text) {
        return Ok(None);
    }
    match keys.fields.known(text)? {
        Some(field) => Ok(Some(Variable::Static { field })),
        None => Ok(None),
    }
}

/// Reads a variable. Returns `None` if the text is none.
pub(crate) fn variable_of<'t>(
    keys: &mut Keys<'t>,
    text: &'t [u8],
) -> Result<Option<Variable>, AllocError>
    ensures { IfOk result (IsReadAs IsVariable variable_text text.now) }
{
    if let Some(variable) = known_static(keys, text)? {
        return Ok(Some(variable));
    }
    match dots_in(text) {
        0 => Ok(element_of(text)),
        2 => static_of(keys, text),
        3 => instance_of(keys, text),
        _ => Ok(None),
    }
}
