//! Members of the built-in classes.

ghost use Rattle.std.specs.Prelude.{◌≡◌, IfOk};
ghost use Rattle.jvms_program.specs.BuiltIn.{method, method_with_code, native_method, abstract_method, field, no_flags};

use descriptor::{field_type, method_type};
use jvms_program::instructions::Instructions;
use jvms_program::program::{Body, Field, Instruction, Method, MethodFlags};
use shared_data::items::Items;
use shared_data::shared::Shared;
use shared_data::texts::ascii_text;
use std::alloc::{AllocError, Global};

/// Returns the flags of a method that has none.
fn no_flags() -> MethodFlags
    ensures { result ≡ no_flags }
{
    MethodFlags {
        is_static: false,
        is_private: false,
        is_synchronized: false,
        is_native: false,
        is_abstract: false,
    }
}

/// Creates a method.
fn method(
    alloc: Global,
    name: &str,
    descriptor: &str,
    flags: MethodFlags,
    body: Option<Body>,
) -> Result<Method, AllocError>
    ensures { IfOk result (λ m. m ≡ method name.now descriptor.now flags body) }
{
    let name = ascii_text(alloc, name)?;
    let descriptor = ascii_text(alloc, descriptor)?;
    let method_type = Shared::new(alloc, method_type(alloc, descriptor.as_slice())?)?;
    Ok(Method {
        name,
        descriptor,
        method_type,
        flags,
        throws: Items::new(alloc),
        body,
    })
}

/// Creates a method with code, with a stack of 2 and 2 locals.
pub(crate) fn method_with_code(
    alloc: Global,
    name: &str,
    descriptor: &str,
    code: Vec<Instruction>,
) -> Result<Method, AllocError>
    ensures { IfOk result (λ m. m ≡ method_with_code name.now descriptor.now code.items) }
{
    let body = Body {
        max_stack: 2,
        max_locals: 2,
        instructions: Instructions::from_vec(alloc, code)?,
        handlers: Items::new(alloc),
    };
    method(alloc, name, descriptor, no_flags(), Some(body))
}

/// Creates a native method.
pub(crate) fn native_method(
    alloc: Global,
    name: &str,
    descriptor: &str,
) -> Result<Method, AllocError>
    ensures { IfOk result (λ m. m ≡ native_method name.now descriptor.now) }
{
    let flags = MethodFlags {
        is_native: true,
        ..no_flags()
    };
    method(alloc, name, descriptor, flags, None)
}

/// Creates an abstract method.
pub(crate) fn abstract_method(
    alloc: Global,
    name: &str,
    descriptor: &str,
) -> Result<Method, AllocError>
    ensures { IfOk result (λ m. m ≡ abstract_method name.now descriptor.now) }
{
    let flags = MethodFlags {
        is_abstract: true,
        ..no_flags()
    };
    method(alloc, name, descriptor, flags, None)
}

/// Creates a field.
pub(crate) fn field(
    alloc: Global,
    is_static: bool,
    name: &str,
    descriptor: &str,
) -> Result<Field, AllocError>
    ensures { IfOk result (λ f. f ≡ field is_static name.now descriptor.now) }
{
    let name = ascii_text(alloc, name)?;
    let descriptor = ascii_text(alloc, descriptor)?;
    let field_type = Shared::new(alloc, field_type(alloc, descriptor.as_slice())?)?;
    Ok(Field {
        name,
        descriptor,
        field_type,
        is_static,
        is_private: false,
        constant: None,
    })
}
