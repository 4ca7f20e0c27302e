//! Writes the source place of a method's instruction.

ghost use Rattle.std.specs.Prelude.{◌≡◌, ◌++◌, OnOk};
ghost use Rattle.std.specs.String.{string_bytes};
ghost use Rattle.source_lines.specs.SourceLines.{source_place};

use crate::files::SourceFiles;
use jvms_program::number::MethodNumber;
use std::alloc::AllocError;

/// Appends the source place of a method's instruction: ` (F.java:12)`. Appends nothing if the class file of the method
/// doesn't have it.
pub fn put_place(
    out: &mut String,
    sources: &SourceFiles,
    method: MethodNumber,
    place: usize,
) -> Result<(), AllocError>
    ensures { OnOk result (string_bytes out.new ≡ string_bytes out.old
        ++ source_place sources.now.first sources.now.files.now method place) }
{
    let alloc = *out.allocator();
    let source = sources
        .source_of(method.class)
        .method(alloc, method.method)?;
    source.put_place(out, place)
}
