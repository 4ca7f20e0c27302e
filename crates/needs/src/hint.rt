//! Hints why a compiler may have added an instruction that isn't in the source.

ghost use Rattle.std.specs.Prelude.{◌≡◌, ◌==◌};
ghost use Rattle.std.specs.List.{list_any};
ghost use Rattle.needs.specs.Hints.{hint_of, is_absence, is_assertion, is_box, is_boxing, is_text_builder, unnamed_hint};

use crate::lack::Lack;
use descriptor::is_named;
use jvms_program::thrown::Thrown;

/// The UTF-16 code unit of `$`.
const DOLLAR: u16 = 36;

/// Returns whether the reason is a missing class.
pub(crate) fn is_absence(lack: Lack) -> bool
    ensures { result ≡ is_absence lack }
{
    matches!(lack, Lack::Unresolved(Thrown::NoClassDefFoundError))
}

/// Returns the hint for an instruction that names neither a class nor a member.
pub(crate) fn unnamed_hint(lack: Lack) -> &'static str
    ensures { result.now ≡ unnamed_hint lack }
{
    match lack {
        Lack::OutOfProfile => " (float or double)",
        Lack::Unresolved(_) => "",
    }
}

/// Returns whether a compiler uses this class for `+` on strings.
fn is_text_builder(class: &[u16]) -> bool
    ensures { result ≡ is_text_builder class.now }
{
    is_named(class, "java/lang/StringBuilder") || is_named(class, "java/lang/StringBuffer")
}

/// Returns whether a compiler uses this class, or this member of it, for `assert`.
fn is_assertion(class: &[u16], member: &[u16]) -> bool
    ensures { result ≡ is_assertion class.now member.now }
{
    is_named(class, "java/lang/AssertionError")
        || is_named(class, "java/lang/Class") && is_named(member, "desiredAssertionStatus")
}

/// Returns whether a class boxes numbers, characters or truth values.
fn is_box(class: &[u16]) -> bool
    ensures { result ≡ is_box class.now }
{
    is_named(class, "java/lang/Integer")
        || is_named(class, "java/lang/Long")
        || is_named(class, "java/lang/Short")
        || is_named(class, "java/lang/Byte")
        || is_named(class, "java/lang/Character")
        || is_named(class, "java/lang/Boolean")
}

/// Returns whether a method of this name boxes or unboxes a value.
fn is_boxing(member: &[u16]) -> bool
    ensures { result ≡ is_boxing member.now }
{
    is_named(member, "valueOf")
        || is_named(member, "intValue")
        || is_named(member, "longValue")
        || is_named(member, "shortValue")
        || is_named(member, "byteValue")
        || is_named(member, "charValue")
        || is_named(member, "booleanValue")
}

/// Returns whether a name has a dollar sign.
fn has_dollar(name: &[u16]) -> bool
    ensures { result ≡ list_any (λ u. u == 36) name.now }
{
    name.iter().any(|unit| *unit == DOLLAR)
}

/// Returns a hint why a compiler may have added an instruction that names this class, and a member of this name. The
/// name is empty if the instruction names no member.
pub(crate) fn hint_of(lack: Lack, class: &[u16], member: &[u16]) -> &'static str
    ensures { result.now ≡ hint_of lack class.now member.now }
{
    if is_text_builder(class) {
        " (+ on strings)"
    } else if is_assertion(class, member) {
        " (assert)"
    } else if is_box(class) && is_boxing(member) {
        " (boxing)"
    } else if is_named(class, "java/lang/Enum") {
        " (enum)"
    } else if is_absence(lack) && has_dollar(class) {
        " (a class of another file)"
    } else {
        ""
    }
}
