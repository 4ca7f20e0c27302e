//! The tests of names, superclasses and superinterfaces. Each returns the first class that fails it.

ghost use Rattle.std.specs.Prelude.{◌≡◌, ◌||◌, IfOk, is_some, not};
ghost use Rattle.std.specs.List.{list_any};
ghost use Rattle.jvms_program.specs.Program.{class_named};
ghost use Rattle.jvms_program.specs.Resolution.{is_interface_kind, names_interface};
ghost use Rattle.linker.specs.Linking.{built_in_name, has_wrong_interface, has_wrong_superclass, is_never_extended, lacks_super, missing_super, names_of, repeated_name, wrong_super};

use built_in::is_built_in;
use classes::{ClassList, OBJECT};
use descriptor::{is_named, same_text};
use jvms_program::program::{Class, ClassKind};
use shared_data::shared::Text;
use std::alloc::{AllocError, Global};
use std::collections::BTreeSet;

/// Returns the first class with the name of a built-in class.
pub(crate) fn built_in_name(classes: &[Class]) -> Option<usize>
    ensures { result ≡ built_in_name classes.now }
{
    classes
        .iter()
        .position(|class| is_built_in(class.name.as_slice()))
}

/// Returns the first class with the name of one before it. The names are in a tree, so that no choice of names makes
/// look-ups slow.
pub(crate) fn repeated_name(alloc: Global, classes: &[Class]) -> Result<Option<usize>, AllocError>
    ensures { IfOk result (λ place. place ≡ repeated_name (names_of classes.now)) }
{
    let mut names = BTreeSet::new(alloc);
    for (place, class) in classes.iter().enumerate() {
        if !names.insert(class.name.as_slice())? {
            return Ok(Some(place));
        }
    }
    Ok(None)
}

/// Decides whether there is no class of a name.
fn is_missing(program: &ClassList, name: &Text) -> bool
    ensures { result ≡ not (is_some (class_named program.now name.now)) }
{
    program.class_named(name.as_slice()).is_none()
}

/// Decides whether a superinterface of a class isn't there.
fn lacks_interface(program: &ClassList, class: &Class) -> bool
    ensures { result
        ≡ list_any (λ name. not (is_some (class_named program.now name))) class.now.interfaces }
{
    let interfaces = class.interfaces.as_slice();
    interfaces.iter().any(|name| is_missing(program, name))
}

/// Decides whether the superclass or a superinterface of a class isn't there.
fn lacks_super(program: &ClassList, class: &Class) -> bool
    ensures { result ≡ lacks_super program.now class.now }
{
    let lacks_interface = lacks_interface(program, class);
    match &class.superclass {
        None => lacks_interface,
        Some(name) => lacks_interface || is_missing(program, name),
    }
}

/// Returns the first class whose superclass or a superinterface isn't there.
pub(crate) fn missing_super(program: &ClassList, classes: &[Class]) -> Option<usize>
    ensures { result ≡ missing_super program.now classes.now }
{
    classes.iter().position(|class| lacks_super(program, class))
}

/// Decides whether a class is one of the built-in ones that no class extends.
fn is_never_extended(name: &[u16]) -> bool
    ensures { result ≡ is_never_extended name.now }
{
    is_named(name, "java/lang/String")
        || is_named(name, "java/lang/Class")
        || is_named(name, "java/lang/System")
        || is_named(name, "java/io/PrintStream")
}

/// Decides whether the superclass of a class is missing or of a wrong kind.
fn has_wrong_superclass(program: &ClassList, class: &Class) -> bool
    ensures { result ≡ has_wrong_superclass program.now class.now }
{
    let Some(superclass) = &class.superclass else {
        return true;
    };
    let name = superclass.as_slice();
    program.names_interface(name)
        || is_never_extended(name)
        || (matches!(class.kind, ClassKind::Interface) && !same_text(name, &OBJECT))
}

/// Decides whether a superinterface of a class is no interface.
fn has_wrong_interface(program: &ClassList, class: &Class) -> bool
    ensures { result ≡ has_wrong_interface program.now class.now }
{
    let interfaces = class.interfaces.as_slice();
    interfaces
        .iter()
        .any(|name| !program.names_interface(name.as_slice()))
}

/// Decides whether the superclass or a superinterface of a class is of a wrong kind.
fn has_wrong_super(program: &ClassList, class: &Class) -> bool
    ensures { result ≡ (has_wrong_superclass program.now class.now
        || has_wrong_interface program.now class.now) }
{
    has_wrong_superclass(program, class) || has_wrong_interface(program, class)
}

/// Returns the first class whose superclass or a superinterface is of a wrong kind.
pub(crate) fn wrong_super(program: &ClassList, classes: &[Class]) -> Option<usize>
    ensures { result ≡ wrong_super program.now classes.now }
{
    classes
        .iter()
        .position(|class| has_wrong_super(program, class))
}
