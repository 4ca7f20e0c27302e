//! Methods and their attributes (JVMS 4.6, 4.7.3, 4.7.5).

ghost use Rattle.std.specs.Prelude.{◌≡◌, [], ◌∷◌, ◌++◌, List, ◌||◌, not, OnOk};
ghost use Rattle.std.specs.List.{list_any};
ghost use Rattle.jvms_file.specs.Names.{is_method_name};
ghost use Rattle.jvms_file.specs.Members.{needs_code, is_code, is_exceptions, is_initializer, is_method_descriptor_for, is_same_method, method_attribute_at, method_at, methods_at};
ghost use Rattle.jvms_file.specs.Reading.{Gives};
ghost use Rattle.file_bytes.specs.Reading.{Finds};
ghost use Rattle.jvms_file.specs.Results.{part_list_onto};
ghost use Rattle.class_file.specs.Seen.{AreMethods};
ghost use Rattle.class_file.specs.Wanted.{is_formed_descriptor, text_wanted, code_attribute_at, exceptions_attribute_at, method_after, named_method_at, is_placed_method};

use crate::attribute::{is_named, kept_content};
use crate::code::{code_at, exceptions_at};
use crate::content::content_at;
use crate::names::{CODE, EXCEPTIONS};
use crate::seen::Seen;
use const_pool::{Forms, Pool, ScannedPool};
use descriptor::{Flags, is_initializer_name};
use file_bytes::{Part, parts_of, u2_at, want};
use jvms_file::class_file::{MethodAttribute, MethodInfo};
use jvms_file::fault::{ClassFault, ReadError};
use shared_data::items::Items;
use std::alloc::{AllocError, Global};

/// The parts of a method before its attributes.
#[derive(Clone, Copy)]
pub(crate) struct Head {
    pub(crate) access: u16,
    pub(crate) name: u16,
    pub(crate) descriptor: u16,
}

/// Decides whether a Code is among attributes.
fn has_code(attributes: &[MethodAttribute]) -> bool
    ensures { result ≡ list_any is_code attributes.now }
{
    attributes.iter().any(|a| matches!(a, MethodAttribute::Code { name: _, code: _ }))
}

/// Decides whether an Exceptions is among attributes.
fn has_exceptions(attributes: &[MethodAttribute]) -> bool
    ensures { result ≡ list_any is_exceptions attributes.now }
{
    attributes.iter().any(|a| matches!(
        a,
        MethodAttribute::Exceptions {
            name: _,
            classes: _
        }
    ))
}

/// Reads a Code attribute after its name, and returns it with the bytes after it.
fn code_after_name<'a>(
    alloc: Global,
    pool: &ScannedPool,
    major: u16,
    cut: ClassFault,
    name: u16,
    bytes: &'a [u8],
) -> Result<(MethodAttribute, &'a [u8]), ReadError>
    ensures { Gives (λ x. (x.0, x.1.now)) result
        (code_attribute_at pool.now major cut name bytes.now) }
{
    let content = content_at(cut, bytes)?;
    let (code, behind) = code_at(alloc, pool, major, content)?;
    Ok((MethodAttribute::Code { name, code }, behind))
}

/// Reads an Exceptions attribute after its name, and returns it with the bytes after it.
fn exceptions_after_name<'a>(
    alloc: Global,
    pool: &Pool,
    cut: ClassFault,
    name: u16,
    bytes: &'a [u8],
) -> Result<(MethodAttribute, &'a [u8]), ReadError>
    ensures { Gives (λ x. (x.0, x.1.now)) result
        (exceptions_attribute_at pool.now cut name bytes.now) }
{
    let content = content_at(cut, bytes)?;
    let (classes, behind) = exceptions_at(alloc, pool, content)?;
    Ok((MethodAttribute::Exceptions { name, classes }, behind))
}

/// The reader of attributes of a method in a class with this pool and version. `code` says whether the method may have
/// Code. `cut` is the fault of missing bytes.
#[derive(Clone, Copy)]
struct Attributes<'p> {
    pool: &'p ScannedPool,
    major: u16,
    cut: ClassFault,
    code: bool,
}

impl Part<MethodAttribute> for Attributes<'_> {
    ghost at = { λ a. method_attribute_at a.pool.now a.major a.cut a.code };

    fn part_at<'a>(
        &self,
        alloc: Global,
        seen: &[MethodAttribute],
        bytes: &'a [u8],
    ) -> Result<(MethodAttribute, &'a [u8]), ReadError> {
        let pool = self.pool.pool();
        let (name, rest) = u2_at(self.cut, bytes)?;
        want(pool.is_utf8(name), ClassFault::Index)?;
        if is_named(pool, name, &CODE) {
            want(!has_code(seen), ClassFault::RepeatedAttribute)?;
            want(self.code, ClassFault::CodePresence)?;
            code_after_name(alloc, self.pool, self.major, self.cut, name, rest)
        } else if is_named(pool, name, &EXCEPTIONS) {
            want(!has_exceptions(seen), ClassFault::RepeatedAttribute)?;
            exceptions_after_name(alloc, pool, self.cut, name, rest)
        } else {
            let (kept, behind) = kept_content(alloc, self.cut, name, rest)?;
            Ok((MethodAttribute::Kept(kept), behind))
        }
    }
}

/// Reads the attributes of a method, and returns it with the bytes after it. It has to have Code if `code` is true, and
/// else may not have it.
fn method_after<'a>(
    alloc: Global,
    pool: &ScannedPool,
    major: u16,
    cut: ClassFault,
    head: Head,
    code: bool,
    bytes: &'a [u8],
) -> Result<(MethodInfo, &'a [u8]), ReadError>
    ensures { Gives (λ x. (x.0, x.1.now)) result
        (method_after pool.now major cut head code bytes.now) }
{
    let (count, rest) = u2_at(cut, bytes)?;
    let parts = Attributes {
        pool,
        major,
        cut,
        code,
    };
    let (attributes, behind) = parts_of(alloc, &parts, usize::from(count), rest)?;
    want(
        !code || has_code(attributes.as_slice()),
        ClassFault::CodePresence,
    )?;
    let method = MethodInfo {
        access: head.access,
        name: head.name,
        descriptor: head.descriptor,
        attributes,
    };
    Ok((method, behind))
}

/// Decides whether a method has to have Code: all but native and abstract ones, and each `<clinit>` (JVMS 4.7.3).
fn needs_code(initializer: bool, access: u16) -> bool
    ensures { result ≡ needs_code initializer access }
{
    let flags = Flags::of_access(access);
    initializer || !(flags.is_native() || flags.is_abstract())
}

/// Decides whether a number is that of the text `<clinit>`.
fn names_initializer(pool: &Pool, name: u16) -> bool
    ensures { result ≡ is_initializer pool.now name }
{
    match pool.utf8(name) {
        None => false,
        Some(text) => is_initializer_name(text),
    }
}

/// Decides whether a class with these access flags may have a method with those. The methods of an interface are
/// abstract, except its initializer.
fn may_have(class_access: u16, initializer: bool, access: u16) -> bool
    ensures { result ≡ is_placed_method class_access initializer access }
{
    !Flags::of_access(class_access).is_interface()
        || initializer
        || Flags::of_access(access).is_abstract()
}

/// Tests that a number is that of a method's name.
fn want_name(pool: &ScannedPool, number: u16) -> Result<(), ClassFault>
    ensures { Finds (λ x. x) result (text_wanted is_method_name pool.now number) }
{
    match pool.forms(number) {
        None => Err(ClassFault::Index),
        Some(forms) => want(forms.method_name, ClassFault::Descriptor),
    }
}

/// Decides whether a text of these forms is a method's descriptor with at most 255 units (JVMS 4.3.3). These include
/// the object that the method is called on, if any.
fn is_descriptor(on_none: bool, forms: Forms) -> bool
    ensures { result ≡ is_formed_descriptor on_none forms }
{
    let most = if on_none { 255 } else { 254 };
    match forms.method_units {
        Some(units) => units <= most,
        None => false,
    }
}

/// Tests that a number is that of a method's descriptor.
#[tactic(auto, using(crate::proofs::FormedDescriptors::formed_descriptor))]
fn want_descriptor(pool: &ScannedPool, on_none: bool, number: u16) -> Result<(), ClassFault>
    ensures { Finds (λ x. x) result
        (text_wanted (is_method_descriptor_for on_none) pool.now number) }
{
    match pool.forms(number) {
        None => Err(ClassFault::Index),
        Some(forms) => want(is_descriptor(on_none, forms), ClassFault::Descriptor),
    }
}

/// Methods that were read, with their names and descriptors.
#[derive(Drop)]
struct Methods {
    items: Items<MethodInfo>,
    seen: Seen,
}

impl Methods {
    /// Creates a list without methods.
    fn new(alloc: Global, pool: &ScannedPool) -> Self
        ensures items { result.items ≡ [] }
        ensures seen { AreMethods pool.now result.seen result.items }
    {
        Methods {
            items: Items::new(alloc),
            seen: Seen::new(alloc),
        }
    }

    /// Decides whether one of the methods has this name and this descriptor.
    fn has(&self, pool: &ScannedPool, name: u16, descriptor: u16) -> bool
        requires { AreMethods pool.now self.now.seen self.now.items }
        ensures { result ≡ list_any (is_same_method pool.now name descriptor) self.now.items }
    {
        self.seen.has(pool, name, descriptor)
    }

    /// Appends a method.
    #[tactic(auto, using(crate::proofs::SeenMembers::method_more))]
    fn push(&mut self, pool: &ScannedPool, method: MethodInfo) -> Result<(), AllocError>
        requires { AreMethods pool.now self.old.seen self.old.items }
        ensures items { OnOk result (self.new.items ≡ self.old.items ++ method ∷ []) }
        ensures seen { OnOk result (AreMethods pool.now self.new.seen self.new.items) }
    {
        self.seen.put(pool, method.name, method.descriptor)?;
        self.items.push(method)?;
        Ok(())
    }
}

/// Reads a method after its access flags and name, and returns it with the bytes after it. `before` are the methods
/// before it.
fn named_at<'a>(
    alloc: Global,
    pool: &ScannedPool,
    major: u16,
    cut: ClassFault,
    access: u16,
    name: u16,
    before: &Methods,
    bytes: &'a [u8],
) -> Result<(MethodInfo, &'a [u8]), ReadError>
    requires { AreMethods pool.now before.now.seen before.now.items }
    ensures { Gives (λ x. (x.0, x.1.now)) result
        (named_method_at pool.now major cut access name before.now.items bytes.now) }
{
    let (descriptor, rest) = u2_at(cut, bytes)?;
    let initializer = names_initializer(pool.pool(), name);
    let on_none = Flags::of_access(access).is_static() || initializer;
    want_descriptor(pool, on_none, descriptor)?;
    want(
        !before.has(pool, name, descriptor),
        ClassFault::RepeatedMember,
    )?;
    let head = Head {
        access,
        name,
        descriptor,
    };
    let code = needs_code(initializer, access);
    method_after(alloc, pool, major, cut, head, code, rest)
}

/// Reads the next method of a class with these access flags, after those in `before`, and returns it with the bytes
/// after it.
#[tactic(auto, unfolding(jvms_file::specs::Members::method_at))]
fn method_at<'a>(
    alloc: Global,
    pool: &ScannedPool,
    major: u16,
    cut: ClassFault,
    class_access: u16,
    before: &Methods,
    bytes: &'a [u8],
) -> Result<(MethodInfo, &'a [u8]), ReadError>
    requires { AreMethods pool.now before.now.seen before.now.items }
    ensures { Gives (λ x. (x.0, x.1.now)) result
        (method_at pool.now major cut class_access before.now.items bytes.now) }
{
    let (access, rest) = u2_at(cut, bytes)?;
    let (name, rest) = u2_at(cut, rest)?;
    want_name(pool, name)?;
    want(
        may_have(class_access, names_initializer(pool.pool(), name), access),
        ClassFault::CodePresence,
    )?;
    named_at(alloc, pool, major, cut, access, name, before, rest)
}

/// Reads `count` methods, and returns them with the bytes after them.
fn methods_of<'a>(
    alloc: Global,
    pool: &ScannedPool,
    major: u16,
    cut: ClassFault,
    class_access: u16,
    count: usize,
    bytes: &'a [u8],
) -> Result<(Items<MethodInfo>, &'a [u8]), ReadError>
    ensures { Gives (λ x. (x.0, x.1.now)) result
        (part_list_onto (method_at pool.now major cut class_access) [] count bytes.now) }
{
    let mut methods = Methods::new(alloc, pool);
    let mut rest = bytes;
    let mut left = count;
    while left > 0 {
        let (method, behind) = match method_at(
            alloc,
            pool,
            major,
            cut,
            class_access,
            &methods,
            rest,
        ) {
            Ok(read) => read,
            Err(error) => return Err(error),
        };
        methods.push(pool, method)?;
        rest = behind;
        left -= 1;
    }
    Ok((methods.items, rest))
}

/// Reads methods_count and the methods of a class with these access flags, and returns them with the bytes after them.
pub(crate) fn methods_at<'a>(
    alloc: Global,
    pool: &ScannedPool,
    major: u16,
    cut: ClassFault,
    class_access: u16,
    bytes: &'a [u8],
) -> Result<(Items<MethodInfo>, &'a [u8]), ReadError>
    ensures { Gives (λ x. (x.0, x.1.now)) result
        (methods_at pool.now major cut class_access bytes.now) }
{
    let (count, rest) = u2_at(cut, bytes)?;
    methods_of(
        alloc,
        pool,
        major,
        cut,
        class_access,
        usize::from(count),
        rest,
    )
}
