//! Looks up texts of a constant pool (JVMS 4.4.7).

ghost use Rattle.std.specs.Prelude.{◌≡◌};
ghost use Rattle.std.specs.Option.{option_copied, option_map};
ghost use Rattle.jvms_file.specs.ConstantPool.{entry, utf8_at};
ghost use Rattle.jvms_program.specs.Meaning.{text_of};
ghost use Rattle.source_lines.specs.SourceLines.{is_named};

use descriptor::is_named as is_text;
use jvms_file::class_file::{Constant, KeptAttribute};

/// Returns the pool entry with this number, if there is one. Entries count from 1.
fn entry(pool: &[Constant], number: u16) -> Option<&Constant>
    ensures { option_copied result ≡ entry pool.now number }
{
    if number == 0 {
        return None;
    }
    pool.get(usize::from(number) - 1)
}

/// Returns the text of the Utf8 entry with this number, if there is one.
pub(crate) fn utf8_at(pool: &[Constant], number: u16) -> Option<&[u16]>
    ensures { option_map (λ t. t.now) result ≡ utf8_at pool.now number }
{
    match entry(pool, number) {
        Some(Constant::Utf8(text)) => Some(text.as_slice()),
        _ => None,
    }
}

/// Returns the text of the Utf8 entry with this number, or the empty text if there is none.
fn text_of(pool: &[Constant], number: u16) -> &[u16]
    ensures { result.now ≡ text_of pool.now number }
{
    match utf8_at(pool, number) {
        Some(text) => text,
        None => &[],
    }
}

/// Returns whether an attribute has this name.
pub(crate) fn is_named(pool: &[Constant], name: &str, attribute: &KeptAttribute) -> bool
    ensures { result ≡ is_named pool.now name.now attribute.now }
{
    is_text(text_of(pool, attribute.name), name)
}
