//! Parses the type at the front of a text without memory. A class's name is a slice of the text.

ghost use Rattle.std.specs.Prelude.{◌≡◌, ◌<◌, ◌==◌, length, IfSome, position};
ghost use Rattle.std.specs.Option.{option_map};
ghost use Rattle.jvms_file.specs.Descriptors.{field_type_from, field_type_of, primitive_of};
ghost use Rattle.descriptor.specs.Scanning.{element_of, type_of, object_at, element_at};

use crate::entry::dimensions_of;
use crate::letters::{BOOLEAN, BYTE, CHAR, DOUBLE, FLOAT, INT, LONG, OBJECT, SEMICOLON, SHORT};
use crate::names::is_class_name;
use jvms_file::descriptor::Primitive;

/// The greatest number of dimensions of an array's type.
const MOST_DIMENSIONS: usize = 255;

/// The type after the brackets of a descriptor.
#[derive(Clone, Copy)]
pub enum ParsedElement<'a> {
    /// A primitive type.
    Primitive(Primitive),
    /// The class of this name.
    Object(&'a [u16]),
}

/// A parsed type whose class name is a slice of its text.
#[derive(Clone, Copy)]
pub struct ParsedType<'a> {
    /// The number of dimensions, or 0 if the type is no array.
    pub dimensions: u8,
    /// The type of the innermost components, or the type itself if it is no array.
    pub innermost: ParsedElement<'a>,
}

/// Returns the primitive type of a letter (JVMS table 4.3-A).
fn primitive_of(letter: u16) -> Option<Primitive>
    ensures { result ≡ primitive_of letter }
{
    match letter {
        BYTE => Some(Primitive::Byte),
        CHAR => Some(Primitive::Char),
        DOUBLE => Some(Primitive::Double),
        FLOAT => Some(Primitive::Float),
        INT => Some(Primitive::Int),
        LONG => Some(Primitive::Long),
        SHORT => Some(Primitive::Short),
        BOOLEAN => Some(Primitive::Boolean),
        _ => None,
    }
}

/// Returns the place of the first semicolon.
fn semicolon_in(text: &[u16]) -> Option<usize>
    ensures { result ≡ position (λ u. u == 59) text.now }
{
    text.iter().position(|unit| *unit == SEMICOLON)
}

/// Parses the text after an `L`, and returns the class's name up to the semicolon with the text after that.
#[tactic(auto, using(crate::proofs::Scanning::no_object, crate::proofs::Scanning::object_ends, crate::proofs::Scanning::named_object))]
fn object_at(text: &[u16]) -> Option<(ParsedElement<'_>, &[u16])>
    ensures { option_map (λ x. (element_of x.0, x.1.now)) result ≡ object_at text.now }
{
    let end = semicolon_in(text)?;
    let name = &text[..end];
    if is_class_name(name) {
        Some((ParsedElement::Object(name), &text[end + 1..]))
    } else {
        None
    }
}

/// Parses the type at the front of a text that does not begin with a bracket, and returns it with the text after it.
fn innermost_at(text: &[u16]) -> Option<(ParsedElement<'_>, &[u16])>
    ensures { option_map (λ x. (element_of x.0, x.1.now)) result ≡ element_at text.now }
{
    match text {
        [] => None,
        [OBJECT, rest @ ..] => object_at(rest),
        [letter, rest @ ..] => {
            let primitive = primitive_of(*letter)?;
            Some((ParsedElement::Primitive(primitive), rest))
        }
    }
}

/// Parses the type at the front of a text, and returns it with the text after it (JVMS 4.3.2).
pub(crate) fn field_at(text: &[u16]) -> Option<(ParsedType<'_>, &[u16])>
    ensures exact { option_map (λ x. (type_of x.0, x.1.now)) result ≡ field_type_from 0 text.now }
    ensures shorter { IfSome result (λ x. length x.1.now < length text.now) }
{
    let brackets = dimensions_of(text);
    if brackets > MOST_DIMENSIONS {
        return None;
    }
    let (innermost, rest) = innermost_at(&text[brackets..])?;
    let spelled = ParsedType {
        dimensions: brackets as u8,
        innermost,
    };
    Some((spelled, rest))
}

/// Parses the whole of a text as a type, or returns `None` if it spells none (JVMS 4.3.2).
pub fn field_in(text: &[u16]) -> Option<ParsedType<'_>>
    ensures { option_map (λ x. type_of x) result ≡ field_type_of text.now }
{
    match field_at(text) {
        Some((spelled, [])) => Some(spelled),
        _ => None,
    }
}
