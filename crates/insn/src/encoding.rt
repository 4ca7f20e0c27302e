//! The bytes of a method's code (JVMS 4.7.3).

ghost use Rattle.std.specs.Prelude.{◌≡◌, ◌++◌, OnOk, OnErr};

use jvms_file::class_file::Layout;
use std::alloc::AllocError;

/// Appends the bytes of a method's instructions, as its layout has them. That these bytes spell the instructions of the
/// layout's code is `layout_spells` of `classfile_laws`. Without memory for all of them nothing changes.
pub fn encode(out: &mut Vec<u8>, layout: &Layout) -> Result<(), AllocError>
    ensures ok { OnOk result (out.new.items ≡ out.old.items ++ layout.now.bytes) }
    ensures kept { OnErr result (out.new.items ≡ out.old.items) }
{
    out.extend_from_slice(layout.bytes.as_slice())
}
