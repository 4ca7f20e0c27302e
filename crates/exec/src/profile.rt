//! The tests for what is outside the profile: types with a float or a double, and classes that `new` can't instantiate.

ghost use Rattle.std.specs.Prelude.{◌≡◌};
ghost use Rattle.std.specs.List.{list_any};
ghost use Rattle.jvms_file.specs.declared.descriptor.Element.TheVariants as element;
ghost use Rattle.descriptor.specs.Scanning.{element_of};
ghost use Rattle.jvms_machine.specs.Profile.{is_outside_element, is_outside_result, is_outside_method, is_outside_class, is_outside_kind, is_outside_component, is_outside_array, is_never_new, is_outside_use};

use descriptor::{ParsedElement, field_in, is_array_name, is_named};
use jvms_file::descriptor::{Element, FieldType, MethodType, Primitive, ResultType};
use jvms_file::insn::{ArrayInsn, ArrayKind, ArrayType, ClassUse};

#[inline(always)]
fn is_outside_primitive(primitive: Primitive) -> bool
    ensures { result ≡ is_outside_element (element.Primitive primitive) }
{
    matches!(primitive, Primitive::Float | Primitive::Double)
}

/// Decides whether a type is a float or a double, or an array of them.
#[inline(always)]
pub fn is_outside_type(t: &FieldType) -> bool
    ensures { result ≡ is_outside_element t.now.element }
{
    match &t.element {
        Element::Primitive(primitive) => is_outside_primitive(*primitive),
        Element::Object(_) => false,
    }
}

fn is_outside_result(given: &ResultType) -> bool
    ensures { result ≡ is_outside_result given.now }
{
    match given {
        ResultType::Void => false,
        ResultType::Value(t) => is_outside_type(t),
    }
}

fn has_outside_parameter(parameters: &[FieldType]) -> bool
    ensures { result ≡ list_any (λ p. is_outside_element p.element) parameters.now }
{
    parameters
        .iter()
        .any(|parameter| is_outside_type(parameter))
}

/// Decides whether a method's descriptor names a float or a double anywhere.
pub fn is_outside_method(t: &MethodType) -> bool
    ensures { result ≡ is_outside_method t.now }
{
    has_outside_parameter(t.parameters.as_slice()) || is_outside_result(&t.result)
}

fn is_outside_innermost(innermost: ParsedElement) -> bool
    ensures { result ≡ is_outside_element (element_of innermost.entry) }
{
    match innermost {
        ParsedElement::Primitive(primitive) => is_outside_primitive(primitive),
        ParsedElement::Object(_) => false,
    }
}

/// Decides whether a class name is that of an array of floats or doubles.
pub fn is_outside_class(name: &[u16]) -> bool
    ensures { result ≡ is_outside_class name.now }
{
    if !is_array_name(name) {
        return false;
    }
    match field_in(name) {
        None => false,
        Some(spelled) => is_outside_innermost(spelled.innermost),
    }
}

#[inline(always)]
fn is_outside_kind(kind: ArrayKind) -> bool
    ensures { result ≡ is_outside_kind kind }
{
    matches!(kind, ArrayKind::Float | ArrayKind::Double)
}

fn is_outside_component(component: ArrayType) -> bool
    ensures { result ≡ is_outside_component component }
{
    matches!(component, ArrayType::Float | ArrayType::Double)
}

/// Decides whether an array instruction is a load, a store or `newarray` of float or double.
#[inline(always)]
pub fn is_outside_array(what: ArrayInsn) -> bool
    ensures { result ≡ is_outside_array what }
{
    match what {
        ArrayInsn::Load(kind) | ArrayInsn::Store(kind) => is_outside_kind(kind),
        ArrayInsn::Length => false,
        ArrayInsn::New(component) => is_outside_component(component),
    }
}

/// Decides whether `new` of this class is outside the profile.
#[tactic(auto, unfolding(jvms_machine::specs::Profile::is_never_new))]
fn is_never_new(name: &[u16]) -> bool
    ensures { result ≡ is_never_new name.now }
{
    is_named(name, "java/lang/String")
        || is_named(name, "java/lang/Class")
        || is_named(name, "java/lang/System")
        || is_named(name, "java/io/PrintStream")
}

/// Decides whether an instruction on the class of a name is outside the profile.
pub fn is_outside_use(how: ClassUse, name: &[u16]) -> bool
    ensures { result ≡ is_outside_use how name.now }
{
    match how {
        ClassUse::New => is_never_new(name),
        ClassUse::NewArray => is_outside_class(name),
        ClassUse::CheckCast | ClassUse::InstanceOf => false,
    }
}
