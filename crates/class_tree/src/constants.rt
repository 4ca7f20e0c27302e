//! Converts the constants that instructions load (JVMS 6.5 `ldc`, `ldc_w`, `ldc2_w`) and that fields have (JVMS 4.7.2).

ghost use Rattle.std.specs.Prelude.{◌≡◌};
ghost use Rattle.jvms_file.specs.ConstantPool.{entry};
ghost use Rattle.listing_spec.specs.Faults.{Lists};
ghost use Rattle.listing_spec.specs.TreeOf.{loaded_of, long_of, constant_operation, value_of};

use crate::texts::Texts;
use jasmin::source::{ConstantWidth, FieldConstant, LoadedConstant, Operation};
use jvms_file::class_file::Constant;
use listing_spec::fault::ListFault;
use shared_data::boxed::Boxed;
use std::alloc::Global;

/// Returns the constant that an `ldc` loads, or the fault `Float` for a float.
fn loaded_of(texts: &Texts<'_>, number: u16) -> Result<LoadedConstant, ListFault>
    ensures { Lists result (loaded_of texts.now (entry texts.now number)) }
{
    match texts.entry(number) {
        Some(Constant::Integer(n)) => Ok(LoadedConstant::Integer(*n)),
        Some(Constant::String { text }) => Ok(LoadedConstant::String(texts.text(*text)?)),
        Some(Constant::Class { name }) => Ok(LoadedConstant::Class(texts.text(*name)?)),
        _ => Err(ListFault::Float),
    }
}

/// Returns an `ldc` or an `ldc_w` of an entry.
pub(crate) fn constant_operation(
    alloc: Global,
    texts: &Texts<'_>,
    width: ConstantWidth,
    number: u16,
) -> Result<Operation, ListFault>
    ensures { Lists result (constant_operation texts.now width number) }
{
    let loaded = loaded_of(texts, number)?;
    Ok(Operation::Constant(width, Boxed::new(alloc, loaded)?))
}

/// Returns an `ldc2_w` of an entry, or the fault `Float` for a double.
pub(crate) fn long_of(texts: &Texts<'_>, number: u16) -> Result<Operation, ListFault>
    ensures { Lists result (long_of (entry texts.now number)) }
{
    match texts.entry(number) {
        Some(Constant::Long(n)) => Ok(Operation::ConstantLong(*n)),
        _ => Err(ListFault::Float),
    }
}

/// Returns the constant of a field by its entry, or the fault `Float` for a float or a double.
pub(crate) fn value_of(texts: &Texts<'_>, number: u16) -> Result<FieldConstant, ListFault>
    ensures { Lists result (value_of texts.now (entry texts.now number)) }
{
    match texts.entry(number) {
        Some(Constant::Integer(n)) => Ok(FieldConstant::Integer(*n)),
        Some(Constant::Long(n)) => Ok(FieldConstant::Long(*n)),
        Some(Constant::String { text }) => Ok(FieldConstant::String(texts.text(*text)?)),
        _ => Err(ListFault::Float),
    }
}
