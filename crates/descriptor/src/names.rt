//! Names of classes and members (JVMS 4.2).

ghost use Rattle.std.specs.Prelude.{◌≡◌};
ghost use Rattle.jvms_file.specs.Instructions.{is_invocable_name};
ghost use Rattle.jvms_file.specs.Names.{begins_with, is_name, is_class_name, is_reserved, is_angle, is_constructor_name, is_initializer_name, is_method_name, same_text};
ghost use Rattle.descriptor.specs.Scanning.{has_no_angles, is_unreserved};

use crate::letters::{BRACKET, DOT, GREATER, LESS, SEMICOLON, SLASH};
use jvms_file::insn::Invoke;

/// The name of a constructor, `<init>` (JVMS 2.9).
const CONSTRUCTOR: [u16; 6] = [
    LESS,
    b'i' as u16,
    b'n' as u16,
    b'i' as u16,
    b't' as u16,
    GREATER,
];

/// The name of a class's or interface's initializer, `<clinit>` (JVMS 2.9).
const INITIALIZER: [u16; 8] = [
    LESS,
    b'c' as u16,
    b'l' as u16,
    b'i' as u16,
    b'n' as u16,
    b'i' as u16,
    b't' as u16,
    GREATER,
];

/// Decides whether two texts are equal.
pub fn same_text(a: &[u16], b: &[u16]) -> bool
    ensures { result ≡ same_text a.now b.now }
{
    a == b
}

/// Decides whether a unit is one that no name may have: `.` `;` `[` or `/`.
fn is_reserved(unit: u16) -> bool
    ensures { result ≡ is_reserved unit }
{
    matches!(unit, DOT | SEMICOLON | BRACKET | SLASH)
}

/// Decides whether a unit is `<` or `>`.
fn is_angle(unit: u16) -> bool
    ensures { result ≡ is_angle unit }
{
    unit == LESS || unit == GREATER
}

/// Decides whether no unit of a text is reserved.
fn is_unreserved(text: &[u16]) -> bool
    ensures { result ≡ is_unreserved text.now }
{
    text.iter().all(|unit| !is_reserved(*unit))
}

/// Decides whether a text is the name of a field, or one part of a class's name (JVMS 4.2.2).
#[tactic(auto, using(crate::proofs::Scanning::name_is))]
pub fn is_name(text: &[u16]) -> bool
    ensures { result ≡ is_name text.now }
{
    !text.is_empty() && is_unreserved(text)
}

/// Decides whether a text is the name of a class or an interface: names joined by slashes (JVMS 4.2.1).
pub fn is_class_name(text: &[u16]) -> bool
    ensures { result ≡ is_class_name text.now }
{
    text.split(|unit| *unit == SLASH).all(|part| is_name(part))
}

/// Decides whether a text is the name of a constructor (JVMS 2.9).
pub fn is_constructor_name(text: &[u16]) -> bool
    ensures { result ≡ is_constructor_name text.now }
{
    same_text(text, &CONSTRUCTOR)
}

/// Decides whether a text is the name of the initializer of a class or an interface (JVMS 2.9).
pub fn is_initializer_name(text: &[u16]) -> bool
    ensures { result ≡ is_initializer_name text.now }
{
    same_text(text, &INITIALIZER)
}

/// Decides whether a text has neither `<` nor `>`.
fn has_no_angles(text: &[u16]) -> bool
    ensures { result ≡ has_no_angles text.now }
{
    text.iter().all(|unit| !is_angle(*unit))
}

/// Decides whether a text is the name of a method: one with no `<` or `>`, or that of a constructor or an initializer
/// (JVMS 4.2.2).
pub fn is_method_name(text: &[u16]) -> bool
    ensures { result ≡ is_method_name text.now }
{
    is_constructor_name(text) || is_initializer_name(text) || (is_name(text) && has_no_angles(text))
}

/// Decides whether a name begins with `<`.
fn is_special_name(name: &[u16]) -> bool
    ensures { result ≡ begins_with 60 name.now }
{
    matches!(name, [LESS, ..])
}

/// Decides whether an instruction may call a method of this name (JVMS 4.9.1).
pub fn is_invocable_name(how: Invoke, name: &[u16]) -> bool
    ensures { result ≡ is_invocable_name how name.now }
{
    match how {
        Invoke::Special => !is_special_name(name) || is_constructor_name(name),
        Invoke::Virtual | Invoke::Static | Invoke::Interface => !is_special_name(name),
    }
}
