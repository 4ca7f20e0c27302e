//! The classes of exceptions: Throwable and the built-in ones below it.

ghost use Rattle.std.specs.Prelude.{◌≡◌, ◌∷◌, ◌++◌, [], codes, map, IfOk, OnOk};
ghost use Rattle.jvms_program.specs.BuiltIn.{method_with_code, field, load, return_void, return_reference, message_field, throwable_constructors, throwable_class, throwable_below};

use crate::classes::{OBJECT, class_with, plain_constructor};
use crate::code::{load, message_field, return_reference, return_void};
use crate::members::{field, method_with_code};
use jvms_file::insn::FieldUse;
use jvms_program::program::{Class, Method};
use shared_data::texts::ascii_text;
use std::alloc::{AllocError, Global};

/// The built-in classes below Throwable, each as the name of its superclass and its own name.
pub(crate) const BELOW: [(&str, &str); 27] = [
    ("java/lang/Throwable", "java/lang/Exception"),
    ("java/lang/Throwable", "java/lang/Error"),
    ("java/lang/Exception", "java/lang/RuntimeException"),
    ("java/lang/Exception", "java/lang/InterruptedException"),
    (
        "java/lang/RuntimeException",
        "java/lang/ArithmeticException",
    ),
    (
        "java/lang/RuntimeException",
        "java/lang/ArrayStoreException",
    ),
    ("java/lang/RuntimeException", "java/lang/ClassCastException"),
    (
        "java/lang/RuntimeException",
        "java/lang/IllegalMonitorStateException",
    ),
    (
        "java/lang/RuntimeException",
        "java/lang/IllegalArgumentException",
    ),
    (
        "java/lang/RuntimeException",
        "java/lang/IllegalStateException",
    ),
    (
        "java/lang/RuntimeException",
        "java/lang/IndexOutOfBoundsException",
    ),
    (
        "java/lang/RuntimeException",
        "java/lang/NegativeArraySizeException",
    ),
    (
        "java/lang/RuntimeException",
        "java/lang/NullPointerException",
    ),
    (
        "java/lang/IndexOutOfBoundsException",
        "java/lang/ArrayIndexOutOfBoundsException",
    ),
    (
        "java/lang/IllegalArgumentException",
        "java/lang/IllegalThreadStateException",
    ),
    ("java/lang/Error", "java/lang/LinkageError"),
    ("java/lang/Error", "java/lang/VirtualMachineError"),
    ("java/lang/LinkageError", "java/lang/NoClassDefFoundError"),
    (
        "java/lang/LinkageError",
        "java/lang/IncompatibleClassChangeError",
    ),
    ("java/lang/LinkageError", "java/lang/UnsatisfiedLinkError"),
    (
        "java/lang/LinkageError",
        "java/lang/ExceptionInInitializerError",
    ),
    (
        "java/lang/IncompatibleClassChangeError",
        "java/lang/AbstractMethodError",
    ),
    (
        "java/lang/IncompatibleClassChangeError",
        "java/lang/InstantiationError",
    ),
    (
        "java/lang/IncompatibleClassChangeError",
        "java/lang/NoSuchFieldError",
    ),
    (
        "java/lang/IncompatibleClassChangeError",
        "java/lang/NoSuchMethodError",
    ),
    (
        "java/lang/VirtualMachineError",
        "java/lang/OutOfMemoryError",
    ),
    (
        "java/lang/VirtualMachineError",
        "java/lang/StackOverflowError",
    ),
];

/// Creates the constructor that stores a message.
fn message_constructor(alloc: Global) -> Result<Method, AllocError>
    ensures { IfOk result
        (λ m. m ≡ method_with_code (codes "<init>") (codes "(Ljava/lang/String;)V")
        (load 0 ∷ load 1 ∷ message_field FieldUse.Put ∷ return_void ∷ [])) }
{
    let put = message_field(alloc, FieldUse::Put)?;
    let code = vec![in alloc; load(0), load(1), put, return_void()]?;
    method_with_code(alloc, "<init>", "(Ljava/lang/String;)V", code)
}

/// Creates the method that returns the message.
fn get_message(alloc: Global) -> Result<Method, AllocError>
    ensures { IfOk result
        (λ m. m ≡ method_with_code (codes "getMessage") (codes "()Ljava/lang/String;")
        (load 0 ∷ message_field FieldUse.Get ∷ return_reference ∷ [])) }
{
    let get = message_field(alloc, FieldUse::Get)?;
    let code = vec![in alloc; load(0), get, return_reference()]?;
    method_with_code(alloc, "getMessage", "()Ljava/lang/String;", code)
}

/// Creates the constructors of Throwable and of each class below it.
fn throwable_constructors(alloc: Global) -> Result<Vec<Method>, AllocError>
    ensures { IfOk result (λ methods. methods.items ≡ throwable_constructors) }
{
    let plain = plain_constructor(alloc)?;
    let message = message_constructor(alloc)?;
    Ok(vec![in alloc; plain, message]?)
}

/// Creates the class Throwable.
pub(crate) fn throwable_class(alloc: Global) -> Result<Class, AllocError>
    ensures { IfOk result (λ c. c ≡ throwable_class) }
{
    let mut methods = throwable_constructors(alloc)?;
    methods.push(get_message(alloc)?)?;
    let interfaces = vec![in alloc; ascii_text(alloc, "java/io/Serializable")?]?;
    let fields = vec![in alloc; field(alloc, false, "message", "Ljava/lang/String;")?]?;
    class_with(
        alloc,
        OBJECT,
        interfaces,
        fields,
        methods,
        "java/lang/Throwable",
    )
}

/// Creates a class below Throwable, with its superclass.
fn throwable_below(alloc: Global, superclass: &str, name: &str) -> Result<Class, AllocError>
    ensures { IfOk result (λ c. c ≡ throwable_below superclass.now name.now) }
{
    let methods = throwable_constructors(alloc)?;
    let interfaces = Vec::new(alloc);
    let fields = Vec::new(alloc);
    class_with(alloc, superclass, interfaces, fields, methods, name)
}

/// Appends classes below Throwable.
pub(crate) fn push_below(
    alloc: Global,
    classes: &mut Vec<Class>,
    below: &[(&str, &str)],
) -> Result<(), AllocError>
    ensures { OnOk result (classes.new.items
        ≡ classes.old.items ++ map (λ p. throwable_below p.0.now p.1.now) below.now) }
{
    for (superclass, name) in below {
        classes.push(throwable_below(alloc, superclass, name)?)?;
    }
    Ok(())
}
