//! Assembles the class file of a source (JVMS 4.1).

ghost use Rattle.std.specs.Prelude.{◌≡◌, nat_lt, ◌||◌, length, IfOk};
ghost use Rattle.std.specs.List.{list_any};
ghost use Rattle.jasmin.specs.Assembling.{is_too_many, has_too_many};
ghost use Rattle.pool_entries.specs.Entries.{AreProper};
ghost use Rattle.assembly.specs.Faults.{Answers};
ghost use Rattle.assembly.specs.Assembled.{class_file_of};

use crate::fields::fields_of;
use crate::methods::methods_of;
use crate::throws::classes_of;
use assembly::fault::AsmFault;
use jasmin::source::{MethodLines, Source};
use jvms_file::class_file::ClassFile;
use pool_entries::Entries;
use shared_data::items::Items;
use std::alloc::Global;

/// The greatest count of two bytes.
const MOST_COUNT: usize = 65535;

/// The major version of the class files.
const VERSION: u16 = 49;

/// Decides whether a count doesn't fit two bytes.
fn is_too_many(count: usize) -> bool
    ensures { result ≡ nat_lt 65535 count }
{
    count > MOST_COUNT
}

/// Decides whether a method has too many catches, or throws too many classes.
fn method_has_too_many(method: &MethodLines) -> bool
    ensures { result ≡ (is_too_many method.now.catches || is_too_many method.now.throws) }
{
    is_too_many(method.catches.len()) || is_too_many(method.throws.len())
}

/// Decides whether a method among these has too many catches, or throws too many classes.
fn any_has_too_many(methods: &[MethodLines]) -> bool
    ensures { result ≡ list_any (λ m. is_too_many m.catches || is_too_many m.throws) methods.now }
{
    methods.iter().any(|method| method_has_too_many(method))
}

/// Decides whether the interfaces, fields, methods, catches or thrown names are more than a count of two bytes allows.
fn has_too_many(source: &Source) -> bool
    ensures { result ≡ has_too_many source.now }
{
    is_too_many(source.interfaces.len())
        || is_too_many(source.fields.len())
        || is_too_many(source.methods.len())
        || any_has_too_many(source.methods.as_slice())
}

/// Returns the class file of a source, as plain data.
///
/// # Errors
///
/// Returns the first fault of the source, or `Memory` if memory ran out.
#[tactic(auto, unfolding(assembly::specs::Assembled::class_file_of))]
pub(crate) fn class_of(alloc: Global, source: &Source) -> Result<ClassFile, AsmFault>
    ensures exact { Answers result (class_file_of source.now) }
    ensures proper { IfOk result (λ c. AreProper c.pool) }
{
    if has_too_many(source) {
        return Err(AsmFault::TooMany);
    }
    let mut entries = Entries::new(alloc);
    let this_class = entries.class(alloc, source.name.as_slice())?;
    let super_class = entries.class(alloc, source.superclass.as_slice())?;
    let interfaces = classes_of(alloc, &mut entries, source.interfaces.as_slice())?;
    let fields = fields_of(alloc, &mut entries, source.fields.as_slice())?;
    let methods = methods_of(alloc, &mut entries, source.methods.as_slice())?;
    Ok(ClassFile {
        minor: 0,
        major: VERSION,
        pool: entries.into_pool(alloc)?.into_entries(),
        access: source.access,
        this_class,
        super_class,
        interfaces,
        fields,
        methods,
        attributes: Items::new(alloc),
    })
}
