//! Tests whether entries name entries of the right kinds, in the right forms (JVMS 4.4.1 to 4.4.6).

ghost use Rattle.std.specs.Prelude.{◌≡◌, []};
ghost use Rattle.jvms_file.specs.declared.class_file.Constant.TheVariants.{Class, NameAndType};
ghost use Rattle.jvms_file.specs.ConstantPool.{names_sort, reference_fault, entry_fault, entries_fault};
ghost use Rattle.file_bytes.specs.Reading.{Finds};
ghost use Rattle.const_pool.specs.Texts.{is_formed_member};

use crate::forms::{Forms, begins_as_method};
use crate::pool::Pool;
use crate::scanned::ScannedPool;
use file_bytes::want;
use jvms_file::class_file::Constant;
use jvms_file::fault::ClassFault;

/// Decides whether texts of these forms are a method's name and descriptor, or a field's.
fn is_member_form(name: Forms, descriptor: Forms) -> bool
    ensures { result ≡ is_formed_member name descriptor }
{
    if descriptor.method_sort {
        name.method_name && descriptor.method_units.is_some()
    } else {
        name.name && descriptor.field_descriptor
    }
}

/// Decides whether an entry names a method, or a field, as asked. Returns true if its numbers name no texts, because
/// that is a fault of its own.
fn is_of_sort(method: bool, pool: &Pool, name_and_type: u16) -> bool
    ensures { result ≡ names_sort method pool.now name_and_type }
{
    match pool.name_and_type(name_and_type) {
        None => true,
        Some((_, descriptor)) => method == begins_as_method(descriptor),
    }
}

/// Tests a field's or a method's entry.
fn check_reference(
    method: bool,
    pool: &Pool,
    class: u16,
    name_and_type: u16,
) -> Result<(), ClassFault>
    ensures { Finds (λ x. x) result (reference_fault method pool.now class name_and_type) }
{
    want(
        pool.is_class(class) && pool.is_name_and_type(name_and_type),
        ClassFault::Index,
    )?;
    want(
        is_of_sort(method, pool, name_and_type),
        ClassFault::Descriptor,
    )
}

/// Tests a class's entry.
#[tactic(auto, unfolding(jvms_file::specs::ConstantPool::entry_fault))]
fn check_class(pool: &ScannedPool, name: u16) -> Result<(), ClassFault>
    ensures { Finds (λ x. x) result (entry_fault pool.now (Class name) []) }
{
    match pool.forms(name) {
        None => Err(ClassFault::Index),
        Some(forms) => want(forms.class_entry_name, ClassFault::Descriptor),
    }
}

/// Tests the entry of a name and a type.
#[tactic(auto, unfolding(jvms_file::specs::ConstantPool::entry_fault), using(crate::proofs::FormedMembers::formed_member))]
fn check_name_and_type(pool: &ScannedPool, name: u16, descriptor: u16) -> Result<(), ClassFault>
    ensures { Finds (λ x. x) result (entry_fault pool.now (NameAndType name descriptor) []) }
{
    match (pool.forms(name), pool.forms(descriptor)) {
        (Some(name), Some(descriptor)) => {
            want(is_member_form(name, descriptor), ClassFault::Descriptor)
        }
        _ => Err(ClassFault::Index),
    }
}

/// Tests one entry. `behind` are the entries after it.
#[tactic(auto, unfolding(jvms_file::specs::ConstantPool::entry_fault))]
fn check_entry(
    pool: &ScannedPool,
    constant: &Constant,
    behind: &[Constant],
) -> Result<(), ClassFault>
    ensures { Finds (λ x. x) result (entry_fault pool.now constant.now behind.now) }
{
    match constant {
        Constant::Utf8(_) | Constant::Integer(_) | Constant::Float(_) | Constant::Unusable => Ok(
            (),
        ),
        Constant::Long(_) | Constant::Double(_) => want(!behind.is_empty(), ClassFault::Index),
        Constant::Class { name } => check_class(pool, *name),
        Constant::String { text } => want(pool.pool().is_utf8(*text), ClassFault::Index),
        Constant::Field {
            class,
            name_and_type,
        } => check_reference(false, pool.pool(), *class, *name_and_type),
        Constant::Method {
            class,
            name_and_type,
        }
        | Constant::InterfaceMethod {
            class,
            name_and_type,
        } => check_reference(true, pool.pool(), *class, *name_and_type),
        Constant::NameAndType { name, descriptor } => check_name_and_type(pool, *name, *descriptor),
    }
}

/// Returns the first fault of entries, in rising order of their numbers.
#[tactic(auto, unfolding(jvms_file::specs::ConstantPool::entries_fault))]
pub(crate) fn check_entries(pool: &ScannedPool, entries: &[Constant]) -> Result<(), ClassFault>
    ensures { Finds (λ x. x) result (entries_fault pool.now entries.now) }
{
    let mut rest = entries;
    while let [constant, behind @ ..] = rest {
        check_entry(pool, constant, behind)?;
        rest = behind;
    }
    Ok(())
}
