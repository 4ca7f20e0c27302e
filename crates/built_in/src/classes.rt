//! The classes that every program has.

ghost use Rattle.std.specs.Prelude.{◌≡◌, ◌∷◌, [], codes, true, IfOk, OnOk};
ghost use Rattle.jvms_program.specs.BuiltIn.{object, class_with, interface_with, object_class, runnable_class, thread_class, print_stream_class, method_with_code, field, load, return_void, target_field, call_run};

use crate::code::{call_run, load, return_void, target_field};
use crate::members::{abstract_method, field, method_with_code, native_method};
use jvms_file::insn::{Branch, FieldUse};
use jvms_program::members::Members;
use jvms_program::program::{Class, ClassKind, Field, Instruction, Method};
use shared_data::items::Items;
use shared_data::shared::Text;
use shared_data::texts::ascii_text;
use std::alloc::{AllocError, Global};

/// The name of the class that all others extend.
pub(crate) const OBJECT: &str = "java/lang/Object";

/// Creates a class with a superclass.
pub(crate) fn class_with(
    alloc: Global,
    superclass: &str,
    interfaces: Vec<Text>,
    fields: Vec<Field>,
    methods: Vec<Method>,
    name: &str,
) -> Result<Class, AllocError>
    ensures { IfOk result
        (λ c. c ≡ class_with superclass.now interfaces.items fields.items methods.items name.now) }
{
    Ok(Class {
        name: ascii_text(alloc, name)?,
        kind: ClassKind::Neither,
        superclass: Some(ascii_text(alloc, superclass)?),
        interfaces: Items::from_vec(interfaces),
        fields: Members::from_vec(alloc, fields)?,
        methods: Members::from_vec(alloc, methods)?,
    })
}

/// Creates an interface without superinterfaces.
pub(crate) fn interface_with(
    alloc: Global,
    methods: Vec<Method>,
    name: &str,
) -> Result<Class, AllocError>
    ensures { IfOk result (λ c. c ≡ interface_with methods.items name.now) }
{
    Ok(Class {
        name: ascii_text(alloc, name)?,
        kind: ClassKind::Interface,
        superclass: Some(ascii_text(alloc, OBJECT)?),
        interfaces: Items::new(alloc),
        fields: Members::from_vec(alloc, Vec::new(alloc))?,
        methods: Members::from_vec(alloc, methods)?,
    })
}

/// Appends the methods of an object to an empty list.
fn put_object_methods(alloc: Global, methods: &mut Vec<Method>) -> Result<(), AllocError>
    requires { methods.old.items ≡ [] }
    ensures { OnOk result (methods.new.items ≡ object_class.methods) }
{
    methods.push(plain_constructor(alloc)?)?;
    methods.push(native_method(alloc, "wait", "()V")?)?;
    methods.push(native_method(alloc, "notify", "()V")?)?;
    methods.push(native_method(alloc, "notifyAll", "()V")?)?;
    Ok(())
}

pub(crate) fn object_class(alloc: Global) -> Result<Class, AllocError>
    ensures { IfOk result (λ c. c ≡ object_class) }
{
    let mut methods = Vec::new(alloc);
    put_object_methods(alloc, &mut methods)?;
    Ok(Class {
        name: ascii_text(alloc, OBJECT)?,
        kind: ClassKind::Neither,
        superclass: None,
        interfaces: Items::new(alloc),
        fields: Members::from_vec(alloc, Vec::new(alloc))?,
        methods: Members::from_vec(alloc, methods)?,
    })
}

pub(crate) fn runnable_class(alloc: Global) -> Result<Class, AllocError>
    ensures { IfOk result (λ c. c ≡ runnable_class) }
{
    let methods = vec![in alloc; abstract_method(alloc, "run", "()V")?]?;
    interface_with(alloc, methods, "java/lang/Runnable")
}

/// Creates the constructor of a thread with a target.
fn thread_constructor(alloc: Global) -> Result<Method, AllocError>
    ensures { IfOk result
        (λ m. m ≡ method_with_code (codes "<init>") (codes "(Ljava/lang/Runnable;)V")
        (load 0 ∷ load 1 ∷ target_field FieldUse.Put ∷ return_void ∷ [])) }
{
    let put = target_field(alloc, FieldUse::Put)?;
    let code = vec![in alloc; load(0), load(1), put, return_void()]?;
    method_with_code(alloc, "<init>", "(Ljava/lang/Runnable;)V", code)
}

/// Creates a thread's run, which calls the target's run if there is a target.
fn thread_run(alloc: Global) -> Result<Method, AllocError>
    ensures { IfOk result (λ m. m ≡ method_with_code (codes "run") (codes "()V")
        (load 0 ∷ target_field FieldUse.Get ∷ Instruction.Branch Branch.IfNull 6
        ∷ load 0 ∷ target_field FieldUse.Get ∷ call_run ∷ return_void ∷ [])) }
{
    let tested = target_field(alloc, FieldUse::Get)?;
    let called = target_field(alloc, FieldUse::Get)?;
    let call = call_run(alloc)?;
    let branch = Instruction::Branch(Branch::IfNull, 6);
    let code = vec![in alloc;
        load(0),
        tested,
        branch,
        load(0),
        called,
        call,
        return_void(),
    ]?;
    method_with_code(alloc, "run", "()V", code)
}

/// Creates the constructor of most classes, which does nothing.
pub(crate) fn plain_constructor(alloc: Global) -> Result<Method, AllocError>
    ensures { IfOk result
        (λ m. m ≡ method_with_code (codes "<init>") (codes "()V") (return_void ∷ [])) }
{
    let code = vec![in alloc; return_void()]?;
    method_with_code(alloc, "<init>", "()V", code)
}

/// Appends the methods of a thread to an empty list.
fn put_thread_methods(alloc: Global, methods: &mut Vec<Method>) -> Result<(), AllocError>
    requires { methods.old.items ≡ [] }
    ensures { OnOk result (methods.new.items ≡ thread_class.methods) }
{
    methods.push(plain_constructor(alloc)?)?;
    methods.push(thread_constructor(alloc)?)?;
    methods.push(thread_run(alloc)?)?;
    methods.push(native_method(alloc, "start", "()V")?)?;
    methods.push(native_method(alloc, "join", "()V")?)?;
    Ok(())
}

/// Creates the class of threads, which have a target to run.
pub(crate) fn thread_class(alloc: Global) -> Result<Class, AllocError>
    ensures { IfOk result (λ c. c ≡ thread_class) }
{
    let interfaces = vec![in alloc; ascii_text(alloc, "java/lang/Runnable")?]?;
    let fields = vec![in alloc; field(alloc, false, "target", "Ljava/lang/Runnable;")?]?;
    let mut methods = Vec::new(alloc);
    put_thread_methods(alloc, &mut methods)?;
    class_with(
        alloc,
        OBJECT,
        interfaces,
        fields,
        methods,
        "java/lang/Thread",
    )
}

/// Appends the methods of a printing stream to an empty list.
fn put_print_methods(alloc: Global, methods: &mut Vec<Method>) -> Result<(), AllocError>
    requires { methods.old.items ≡ [] }
    ensures { OnOk result (methods.new.items ≡ print_stream_class.methods) }
{
    methods.push(native_method(alloc, "print", "(I)V")?)?;
    methods.push(native_method(alloc, "print", "(J)V")?)?;
    methods.push(native_method(alloc, "print", "(Ljava/lang/String;)V")?)?;
    methods.push(native_method(alloc, "println", "(I)V")?)?;
    methods.push(native_method(alloc, "println", "(J)V")?)?;
    methods.push(native_method(alloc, "println", "(Ljava/lang/String;)V")?)?;
    methods.push(native_method(alloc, "println", "()V")?)?;
    Ok(())
}

/// Creates the class of printing streams.
pub(crate) fn print_stream_class(alloc: Global) -> Result<Class, AllocError>
    ensures { IfOk result (λ c. c ≡ print_stream_class) }
{
    let mut methods = Vec::new(alloc);
    put_print_methods(alloc, &mut methods)?;
    let interfaces = Vec::new(alloc);
    let fields = Vec::new(alloc);
    class_with(
        alloc,
        OBJECT,
        interfaces,
        fields,
        methods,
        "java/io/PrintStream",
    )
}

/// Creates a serializable class without members.
pub(crate) fn serializable_class(alloc: Global, name: &str) -> Result<Class, AllocError>
    ensures { IfOk result
        (λ c. c ≡ class_with object (codes "java/io/Serializable" ∷ []) [] [] name.now) }
{
    let interfaces = vec![in alloc; ascii_text(alloc, "java/io/Serializable")?]?;
    let fields = Vec::new(alloc);
    let methods = Vec::new(alloc);
    class_with(alloc, OBJECT, interfaces, fields, methods, name)
}

/// Creates the class with the stream `out`.
pub(crate) fn system_class(alloc: Global) -> Result<Class, AllocError>
    ensures { IfOk result (λ c. c
        ≡ class_with object [] (field true (codes "out") (codes "Ljava/io/PrintStream;") ∷ []) []
        (codes "java/lang/System")) }
{
    let fields = vec![in alloc; field(alloc, true, "out", "Ljava/io/PrintStream;")?]?;
    let interfaces = Vec::new(alloc);
    let methods = Vec::new(alloc);
    class_with(
        alloc,
        OBJECT,
        interfaces,
        fields,
        methods,
        "java/lang/System",
    )
}
