//! Methods (JVMS 4.6).

ghost use Rattle.std.specs.Prelude.{◌≡◌, IfOk, map};
ghost use Rattle.jvms_file.specs.Members.{is_initializer};
ghost use Rattle.jvms_program.specs.Meaning.{flags_of, method_of};

use crate::code::body_among;
use crate::texts::Texts;
use const_pool::Pool;
use descriptor::{Flags, is_initializer_name};
use jvms_file::class_file::MethodInfo;
use jvms_program::attributes::exceptions_of;
use jvms_program::members::Members;
use jvms_program::program::{Method, MethodFlags};
use shared_data::items::Items;
use std::alloc::{AllocError, Global};

/// Decides whether a method of this name is a class's or an interface's initialization method (JVMS 2.9).
fn is_initializer(pool: &Pool, name: u16) -> bool
    ensures { result ≡ is_initializer pool.now name }
{
    match pool.utf8(name) {
        Some(text) => is_initializer_name(text),
        None => false,
    }
}

/// Returns the flags of a method that calls use (JVMS table 4.6-A). An initialization method has none.
fn flags_of(is_initializer: bool, access: u16) -> MethodFlags
    ensures { result ≡ flags_of is_initializer access }
{
    let flags = Flags::of_access(access);
    MethodFlags {
        is_static: !is_initializer && flags.is_static(),
        is_private: !is_initializer && flags.is_private(),
        is_synchronized: !is_initializer && flags.is_synchronized(),
        is_native: !is_initializer && flags.is_native(),
        is_abstract: !is_initializer && flags.is_abstract(),
    }
}

/// Returns a method with its texts.
fn method_of(alloc: Global, texts: &Texts, info: &MethodInfo) -> Result<Method, AllocError>
    ensures { IfOk result (λ m. m ≡ method_of texts.now info.now) }
{
    let attributes = info.attributes.as_slice();
    let descriptor = texts.typed_text(info.descriptor);
    Ok(Method {
        name: texts.text(info.name)?,
        descriptor: descriptor.text.share()?,
        method_type: descriptor.method_type.share()?,
        flags: flags_of(is_initializer(texts.pool(), info.name), info.access),
        throws: texts.class_names(alloc, exceptions_of(attributes))?,
        body: body_among(alloc, texts, attributes)?,
    })
}

/// Returns the methods of a class, in order. Drops each entry of the class file as soon as its method is made.
pub(crate) fn methods_of(
    alloc: Global,
    texts: &Texts,
    infos: Items<MethodInfo>,
) -> Result<Members<Method>, AllocError>
    ensures { IfOk result (λ ms. ms ≡ map (method_of texts.now) infos) }
{
    let mut methods = Vec::with_capacity(alloc, infos.len())?;
    for info in infos.into_vec() {
        methods.push(method_of(alloc, texts, &info)?)?;
    }
    Members::from_vec(alloc, methods)
}
