//! The constants that instructions load from the constant pool (JVMS 6.5 ldc, ldc2_w), and the first values of static
//! fields (JVMS 4.7.2).

ghost use Rattle.std.specs.Prelude.{◌≡◌, IfOk};
ghost use Rattle.jvms_file.specs.ConstantPool.{entry};
ghost use Rattle.jvms_program.specs.Meaning.{loadable_of};

use crate::texts::Texts;
use const_pool::Constant;
use jvms_program::program::Loadable;
use std::alloc::AllocError;

/// Returns the constant of an entry, or the int 0 if the number names no such entry.
pub(crate) fn loadable_of(texts: &Texts, number: u16) -> Result<Loadable, AllocError>
    ensures { IfOk result (λ l. l ≡ loadable_of texts.now (entry texts.now number)) }
{
    match texts.pool().entry(number) {
        Some(Constant::Integer(n)) => Ok(Loadable::Integer(*n)),
        Some(Constant::Float(n)) => Ok(Loadable::Float(*n)),
        Some(Constant::Long(n)) => Ok(Loadable::Long(*n)),
        Some(Constant::Double(n)) => Ok(Loadable::Double(*n)),
        Some(Constant::String { text }) => Ok(Loadable::String(texts.text(*text)?)),
        Some(Constant::Class { name }) => Ok(Loadable::Class(texts.text(*name)?)),
        _ => Ok(Loadable::Integer(0)),
    }
}
