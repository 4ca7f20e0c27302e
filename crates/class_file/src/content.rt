//! The length of an attribute's content, and the content within it.

ghost use Rattle.std.specs.Prelude.{◌≡◌};
ghost use Rattle.file_bytes.specs.Reading.{Finds};
ghost use Rattle.jvms_file.specs.Members.{attribute_frame, frame_at, want_all};
ghost use Rattle.class_file.specs.Contents.{framed_by};

use file_bytes::{u4_at, want};
use jvms_file::fault::ClassFault;

/// An attribute's content and the bytes after it. A read past the content's end has the fault `cut`: that of the
/// attribute's length if the content is complete, else that of missing input.
#[derive(Clone, Copy)]
pub(crate) struct Content<'a> {
    /// True if all bytes of the content are there.
    pub(crate) whole: bool,
    /// The fault of missing bytes.
    pub(crate) cut: ClassFault,
    pub(crate) bytes: &'a [u8],
    pub(crate) after: &'a [u8],
}

/// Returns the content of `count` bytes.
fn content_of(cut: ClassFault, count: usize, bytes: &[u8]) -> Content<'_>
    ensures { framed_by result ≡ attribute_frame cut count bytes.now }
{
    if count <= bytes.len() {
        let (content, after) = bytes.split_at(count);
        Content {
            whole: true,
            cut: ClassFault::AttributeLength,
            bytes: content,
            after,
        }
    } else {
        Content {
            whole: false,
            cut,
            bytes,
            after: &bytes[bytes.len()..],
        }
    }
}

/// Reads the length of an attribute's content, and returns the content.
pub(crate) fn content_at(cut: ClassFault, bytes: &[u8]) -> Result<Content<'_>, ClassFault>
    ensures { Finds framed_by result (frame_at cut bytes.now) }
{
    let (count, rest) = u4_at(cut, bytes)?;
    Ok(content_of(cut, count as usize, rest))
}

/// Tests that an attribute's content was read to its end. `rest` is what is left of it.
pub(crate) fn want_all(content: Content<'_>, rest: &[u8]) -> Result<(), ClassFault>
    ensures { Finds (λ x. x) result (want_all (framed_by content.entry) rest.now) }
{
    match rest {
        [] => want(content.whole, content.cut),
        [_, ..] => Err(content.cut),
    }
}
