//! Subtypes (JVMS 4.10.1.2, 6.5 checkcast).

ghost use Rattle.std.specs.Prelude.{◌≡◌, codes};
ghost use Rattle.jvms_file.specs.Descriptors.{letter_of};
ghost use Rattle.jvms_program.specs.Resolution.{ancestry, names_class, is_array_ancestor, is_array_ancestor_element, is_element_subtype, is_type_subtype, fits};
ghost use Rattle.descriptor.specs.Scanning.{element_of, type_of};

use crate::ancestors::first_in_ancestry;
use crate::class_type::class_type;
use crate::list::Classes;
use crate::look::ClassNamed;
use descriptor::{ParsedElement, ParsedType, is_named};
use jvms_file::descriptor::Primitive;

/// Returns the letter of a primitive type (JVMS table 4.3-A).
fn letter_of(primitive: Primitive) -> u16
    ensures { result ≡ letter_of primitive }
{
    match primitive {
        Primitive::Byte => 66,
        Primitive::Char => 67,
        Primitive::Double => 68,
        Primitive::Float => 70,
        Primitive::Int => 73,
        Primitive::Long => 74,
        Primitive::Short => 83,
        Primitive::Boolean => 90,
    }
}

/// Decides whether a class or one above it has a name.
#[tactic(auto, using(crate::proofs::SubtypeLaws::none_named))]
fn is_above(program: &Classes, name: &[u16], class: &[u16]) -> bool
    ensures { result ≡ names_class name.now (ancestry program.now class.now) }
{
    if program.class_named(name).is_none() {
        return false;
    }
    first_in_ancestry(program, class, &ClassNamed { name }).is_some()
}

/// Decides whether a name is that of a supertype of every array.
fn is_array_ancestor(name: &[u16]) -> bool
    ensures { result ≡ is_array_ancestor name.now }
{
    is_named(name, "java/lang/Object")
        || is_named(name, "java/lang/Cloneable")
        || is_named(name, "java/io/Serializable")
}

/// Decides whether an element is a subtype of another.
fn is_element_subtype(program: &Classes, a: ParsedElement<'_>, b: ParsedElement<'_>) -> bool
    ensures { result ≡ is_element_subtype program.now (element_of a.entry) (element_of b.entry) }
{
    match a {
        ParsedElement::Primitive(p) => match b {
            ParsedElement::Primitive(q) => letter_of(p) == letter_of(q),
            ParsedElement::Object(_) => false,
        },
        ParsedElement::Object(name) => match b {
            ParsedElement::Primitive(_) => false,
            ParsedElement::Object(above) => is_above(program, above, name),
        },
    }
}

/// Decides whether an element is a supertype of every array.
fn takes_arrays(element: ParsedElement<'_>) -> bool
    ensures { result ≡ is_array_ancestor_element (element_of element.entry) }
{
    match element {
        ParsedElement::Primitive(_) => false,
        ParsedElement::Object(name) => is_array_ancestor(name),
    }
}

/// Decides whether a type is a subtype of another.
fn is_type_subtype(program: &Classes, a: ParsedType<'_>, b: ParsedType<'_>) -> bool
    ensures { result ≡ is_type_subtype program.now (type_of a.entry) (type_of b.entry) }
{
    if b.dimensions < a.dimensions {
        takes_arrays(b.innermost)
    } else if a.dimensions == b.dimensions {
        is_element_subtype(program, a.innermost, b.innermost)
    } else {
        false
    }
}

impl Classes {
    /// Decides whether the class of the first name is a subtype of the class of the second.
    #[tactic(auto, unfolding(jvms_program::specs::Resolution::fits))]
    pub fn fits(&self, a: &[u16], b: &[u16]) -> bool
        ensures { result ≡ fits self.now a.now b.now }
    {
        let Some(a) = class_type(a) else {
            return false;
        };
        let Some(b) = class_type(b) else {
            return false;
        };
        is_type_subtype(self, a, b)
    }
}
