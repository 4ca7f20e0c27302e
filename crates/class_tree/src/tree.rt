//! Converts a class file to its tree (JVMS 4.1).

ghost use Rattle.std.specs.Prelude.{◌≡◌};
ghost use Rattle.listing_spec.specs.Faults.{Lists};
ghost use Rattle.listing_spec.specs.TreeOf.{class_flags, tree_of};

use crate::fields::field_lines;
use crate::methods::all_method_lines;
use crate::texts::Texts;
use jasmin::source::Source;
use jvms_file::class_file::ClassFile;
use listing_spec::fault::ListFault;
use std::alloc::Global;

/// The flags that access words of `.class` spell (JVMS table 4.1-A).
const CLASS_FLAGS: u16 = 1041;

/// The flag that `.class` adds.
const CLASS_ADDS: u16 = 32;

/// The flag of an interface.
const INTERFACE: u16 = 0x0200;

/// The flags that access words of `.interface` spell.
const INTERFACE_FLAGS: u16 = 49;

/// The flags that `.interface` adds.
const INTERFACE_ADDS: u16 = 1536;

/// Returns a class's flags as `.class` or `.interface` spells them.
fn class_flags(access: u16) -> u16
    ensures { result ≡ class_flags access }
{
    if access & INTERFACE != 0 {
        access & INTERFACE_FLAGS | INTERFACE_ADDS
    } else {
        access & CLASS_FLAGS | CLASS_ADDS
    }
}

/// Returns the tree of a source with the meaning of a class file. Each instruction is as it is spelled. A label `Ln`
/// precedes instruction n, or follows the last, if something refers to it.
///
/// # Errors
///
/// Returns `Name` if there is no superclass, `Float` if an instruction or a field uses a float or a double, and
/// `Memory` if memory ran out.
#[tactic(auto, unfolding(listing_spec::specs::TreeOf::tree_of))]
pub fn tree_of(alloc: Global, class: &ClassFile) -> Result<Source, ListFault>
    ensures exact { Lists result (tree_of class.now) }
{
    if class.super_class == 0 {
        return Err(ListFault::Name);
    }
    let texts = Texts::of(alloc, class.pool.as_slice())?;
    let fields = field_lines(alloc, &texts, class.fields.as_slice())?;
    let methods = all_method_lines(alloc, &texts, class.methods.as_slice())?;
    Ok(Source {
        access: class_flags(class.access),
        name: texts.class_name(class.this_class)?,
        superclass: texts.class_name(class.super_class)?,
        interfaces: texts.class_names(alloc, class.interfaces.as_slice())?,
        fields,
        methods,
    })
}
