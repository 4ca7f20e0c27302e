//! Finds the name of a class file's source (JVMS 4.7.10).

ghost use Rattle.std.specs.Prelude.{◌≡◌};
ghost use Rattle.std.specs.Option.{option_map};
ghost use Rattle.source_lines.specs.SourceLines.{name_in, source_name};

use crate::bytes::u2;
use crate::pool::{is_named, utf8_at};
use jvms_file::class_file::{Constant, KeptAttribute};

/// Returns the name whose number is the content of a SourceFile attribute.
fn name_in<'f>(pool: &'f [Constant], content: &[u8]) -> Option<&'f [u16]>
    ensures { option_map (λ t. t.now) result ≡ name_in pool.now content.now }
{
    if content.len() == 2 {
        utf8_at(pool, u2(content))
    } else {
        None
    }
}

/// Returns the name in the first SourceFile attribute.
pub(crate) fn source_name<'f>(
    pool: &'f [Constant],
    attributes: &[KeptAttribute],
) -> Option<&'f [u16]>
    ensures { option_map (λ t. t.now) result ≡ source_name pool.now attributes.now }
{
    let mut rest = attributes;
    while let [attribute, others @ ..] = rest {
        if is_named(pool, "SourceFile", attribute) {
            return name_in(pool, attribute.bytes.as_slice());
        }
        rest = others;
    }
    None
}
