//! Method descriptors (JVMS 4.3.3).

ghost use Rattle.std.specs.Prelude.{◌≡◌, ◌≤◌, ◌++◌, ◌∷◌, [], IfOk, IfSome, is_some, Some, None, length, nat_le, ◌&&◌, if◌then◌else◌};
ghost use Rattle.std.specs.Option.{option_map};
ghost use Rattle.jvms_file.specs.declared.descriptor.MethodType.{MethodType};
ghost use Rattle.jvms_file.specs.Names.{same_text};
ghost use Rattle.jvms_file.specs.Descriptors.{method_type_of, parameter_units, result_type_of, within_255_units, SpellsMethodType};
ghost use Rattle.descriptor.specs.Reading.{IsRead, IsReadBy};
ghost use Rattle.descriptor.specs.Scanning.{parameters_after, units_after, after_parenthesis, method_after};

use crate::fault::DescriptorFault;
use crate::field::{is_field_descriptor, owned, read_field};
use crate::letters::{CLOSE, OPEN, VOID};
use crate::names::same_text;
use crate::scan::field_at;
use crate::units::{parameter_units, spelled_units};
use jvms_file::descriptor::{FieldType, MethodType, ResultType};
use shared_data::items::Items;
use std::alloc::Global;

/// The greatest number of units of a method's parameters.
const MOST_UNITS: usize = 255;

/// The descriptor of a method that returns nothing.
const NO_RESULT: [u16; 1] = [VOID];

/// Parses the parameters up to the closing parenthesis, and returns them with the text after it.
fn parameters_at(alloc: Global, text: &[u16]) -> Result<(Items<FieldType>, &[u16]), DescriptorFault>
    ensures { IsReadBy (λ x. (x.0, x.1.now)) result (parameters_after [] text.now) }
{
    let mut found = Items::new(alloc);
    let mut rest = text;
    while let Some((first, behind)) = rest.split_first() {
        if *first == CLOSE {
            return Ok((found, behind));
        }
        let Some((spelled, after)) = field_at(rest) else {
            return Err(DescriptorFault::Malformed);
        };
        found.push(owned(alloc, spelled)?)?;
        rest = after;
    }
    Err(DescriptorFault::Malformed)
}

/// Counts the units of the parameters up to the closing parenthesis, and returns them with the text after it.
fn units_at(text: &[u16]) -> Option<(usize, &[u16])>
    ensures { option_map (λ x. (x.0, x.1.now)) result ≡ units_after 0 text.now }
{
    let mut units = 0;
    let mut rest = text;
    while let Some((first, behind)) = rest.split_first() {
        if *first == CLOSE {
            return Some((units, behind));
        }
        let (spelled, after) = field_at(rest)?;
        units += spelled_units(spelled);
        rest = after;
    }
    None
}

/// Parses a method's result from the text after its parameters.
fn read_result(alloc: Global, text: &[u16]) -> Result<ResultType, DescriptorFault>
    ensures { IsRead result (result_type_of text.now) }
{
    if same_text(text, &NO_RESULT) {
        return Ok(ResultType::Void);
    }
    Ok(ResultType::Value(read_field(alloc, text)?))
}

/// Decides whether a text spells a method's result.
fn is_result(text: &[u16]) -> bool
    ensures { result ≡ is_some (result_type_of text.now) }
{
    same_text(text, &NO_RESULT) || is_field_descriptor(text)
}

/// Returns the text after the opening parenthesis, or `None` if the text doesn't begin with one.
fn after_parenthesis(text: &[u16]) -> Option<&[u16]>
    ensures { option_map (λ x. x.now) result ≡ after_parenthesis text.now }
{
    let (first, behind) = text.split_first()?;
    if *first == OPEN { Some(behind) } else { None }
}

/// Returns the method's type, or `Malformed` if its parameters have more than 255 units.
fn within_255_units(method: MethodType) -> Result<MethodType, DescriptorFault>
    ensures { IsRead result (within_255_units method) }
{
    if parameter_units(&method) > MOST_UNITS {
        return Err(DescriptorFault::Malformed);
    }
    Ok(method)
}

/// Parses a method's descriptor from the text after its opening parenthesis.
fn read_after_parenthesis(alloc: Global, behind: &[u16]) -> Result<MethodType, DescriptorFault>
    ensures { IsRead result (method_after behind.now) }
{
    let (parameters, rest) = parameters_at(alloc, behind)?;
    let result = read_result(alloc, rest)?;
    within_255_units(MethodType { parameters, result })
}

/// Parses a text as a method's type.
#[tactic(auto, using(crate::proofs::Methods::method_opened, crate::proofs::Methods::method_unopened))]
pub(crate) fn read_method(alloc: Global, text: &[u16]) -> Result<MethodType, DescriptorFault>
    ensures { IsRead result (method_type_of text.now) }
{
    match after_parenthesis(text) {
        None => Err(DescriptorFault::Malformed),
        Some(behind) => read_after_parenthesis(alloc, behind),
    }
}

/// Parses a method's descriptor.
pub fn parse_method(alloc: Global, text: &[u16]) -> Result<MethodType, DescriptorFault>
    // The one type that the text spells, or `Malformed` if it spells none.
    ensures exact { IsRead result (method_type_of text.now) }
    // A type that is returned is spelled by the text.
    ensures found { IfOk result (λ t. SpellsMethodType text.now t) }
    // A type that the text spells is returned, unless memory runs out.
    ensures only { (t : MethodType) → SpellsMethodType text.now t → IsRead result (Some t) }
{
    read_method(alloc, text)
}

/// Returns the number of units if it is at most 255 and a result follows the parameters.
fn few_enough(units: usize, has_result: bool) -> Option<usize>
    ensures exact { result ≡ (if nat_le units 255 && has_result then Some units else None) }
    ensures few { IfSome result (λ n. n ≤ 255) }
{
    if units <= MOST_UNITS && has_result {
        Some(units)
    } else {
        None
    }
}

/// Counts the units of a method's parameters, from the text after its opening parenthesis. Returns `None` if that text
/// doesn't end a method's descriptor.
#[tactic(auto, using(crate::proofs::Methods::no_parameters, crate::proofs::Methods::some_parameters))]
fn units_after_parenthesis(behind: &[u16]) -> Option<usize>
    ensures exact { result ≡ option_map (λ t. parameter_units t) (method_after behind.now) }
    ensures few { IfSome result (λ n. n ≤ 255) }
{
    match units_at(behind) {
        None => None,
        Some((units, rest)) => few_enough(units, is_result(rest)),
    }
}

/// Counts the units of a method's parameters, without memory. Returns `None` if the text is no method's descriptor.
#[tactic(auto, using(crate::proofs::Methods::method_opened, crate::proofs::Methods::method_unopened))]
pub fn method_units(text: &[u16]) -> Option<usize>
    ensures exact { result ≡ option_map (λ t. parameter_units t) (method_type_of text.now) }
    ensures few { IfSome result (λ units. units ≤ 255) }
{
    match after_parenthesis(text) {
        None => None,
        Some(behind) => units_after_parenthesis(behind),
    }
}

/// Decides whether a text is a method's descriptor.
#[tactic(auto, using(crate::proofs::Methods::units_of_some))]
pub fn is_method_descriptor(text: &[u16]) -> bool
    ensures { result ≡ is_some (method_type_of text.now) }
{
    method_units(text).is_some()
}
