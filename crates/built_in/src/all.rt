//! All built-in classes.

ghost use Rattle.std.specs.Prelude.{◌≡◌, [], IfOk, OnOk};
ghost use Rattle.std.specs.List.{list_any};
ghost use Rattle.jvms_file.specs.Names.{same_text};
ghost use Rattle.jvms_program.specs.BuiltIn.{built_in_classes, is_built_in};
ghost use Rattle.built_in.specs.Ordinary.{ordinary_classes};

use crate::classes::{
    interface_with, object_class, print_stream_class, runnable_class, serializable_class,
    system_class, thread_class,
};
use crate::throwables::{BELOW, push_below, throwable_class};
use descriptor::is_text;
use jvms_program::program::Class;
use std::alloc::{AllocError, Global};

/// The names of the built-in classes, except those below Throwable.
const ORDINARY: [&str; 10] = [
    "java/lang/Object",
    "java/lang/String",
    "java/lang/Class",
    "java/lang/System",
    "java/io/PrintStream",
    "java/lang/Thread",
    "java/lang/Runnable",
    "java/lang/Cloneable",
    "java/io/Serializable",
    "java/lang/Throwable",
];

/// Appends the built-in classes, except those below Throwable, to an empty list.
fn put_ordinary(alloc: Global, classes: &mut Vec<Class>) -> Result<(), AllocError>
    requires { classes.old.items ≡ [] }
    ensures { OnOk result (classes.new.items ≡ ordinary_classes) }
{
    classes.push(object_class(alloc)?)?;
    classes.push(serializable_class(alloc, "java/lang/String")?)?;
    classes.push(serializable_class(alloc, "java/lang/Class")?)?;
    classes.push(system_class(alloc)?)?;
    classes.push(print_stream_class(alloc)?)?;
    classes.push(thread_class(alloc)?)?;
    classes.push(runnable_class(alloc)?)?;
    classes.push(interface_with(alloc, Vec::new(alloc), "java/lang/Cloneable")?)?;
    classes.push(interface_with(alloc, Vec::new(alloc), "java/io/Serializable")?)?;
    classes.push(throwable_class(alloc)?)?;
    Ok(())
}

/// Returns the built-in classes.
pub fn built_in_classes(alloc: Global) -> Result<Vec<Class>, AllocError>
    ensures { IfOk result (λ classes. classes.items ≡ built_in_classes) }
{
    let mut classes = Vec::new(alloc);
    put_ordinary(alloc, &mut classes)?;
    push_below(alloc, &mut classes, &BELOW)?;
    Ok(classes)
}

/// Decides whether a name is one of these.
fn is_one_of(names: &[&str], name: &[u16]) -> bool
    ensures { result ≡ list_any (λ n. same_text n.now name.now) names.now }
{
    names.iter().any(|n| is_text(n, name))
}

/// Decides whether a name is that of one of these classes below Throwable.
fn is_below(below: &[(&str, &str)], name: &[u16]) -> bool
    ensures { result ≡ list_any (λ p. same_text p.1.now name.now) below.now }
{
    below.iter().any(|(_, n)| is_text(n, name))
}

/// Decides whether a class of this name is built in.
pub fn is_built_in(name: &[u16]) -> bool
    ensures { result ≡ is_built_in name.now }
{
    let ordinary = is_one_of(&ORDINARY, name);
    let below = is_below(&BELOW, name);
    ordinary || below
}
