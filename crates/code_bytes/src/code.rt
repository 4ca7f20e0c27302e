//! Assembles the code of a method (JVMS 4.7.3).

ghost use Rattle.std.specs.Prelude.{◌≡◌, length};
ghost use Rattle.jasmin.specs.Denote.{has_code, operations};
ghost use Rattle.assembly.specs.CodeOf.{code_within};
ghost use Rattle.assembly.specs.Faults.{Answers};

use crate::bytes::bytes_of;
use crate::handlers::handlers_of;
use crate::insns::insns_of;
use crate::starts::{starts_of, widened};
use assembly::fault::AsmFault;
use descriptor::{Flags, is_initializer_name};
use jasmin::source::MethodLines;
use jvms_file::class_file::{Code, Layout};
use shared_data::items::Items;
use source_labels::Labels;
use std::alloc::Global;

/// Decides whether a method has code. All but native and abstract methods have, and each `<clinit>` (JVMS 4.7.3).
pub fn has_code(method: &MethodLines) -> bool
    ensures { result ≡ has_code method.now.name method.now.access }
{
    let flags = Flags::of_access(method.access);
    is_initializer_name(method.name.as_slice()) || !(flags.is_native() || flags.is_abstract())
}

/// Returns the code of a method (JVMS 4.7.3). `operands` and `caught` are the pool entries that its instructions and
/// its catches name, or 0 where they name none. `labels` are those of its code.
///
/// # Errors
///
/// Returns `CodeLength` if the code is empty or has more than 65535 bytes. Returns `BranchTooFar` if a branch with an
/// offset of two bytes can't reach its label, and `Memory` if memory ran out.
pub fn code_within(
    alloc: Global,
    operands: &[u16],
    caught: &[u16],
    method: &MethodLines,
    labels: &Labels<'_>,
) -> Result<Code, AsmFault>
    requires labels { labels.now ≡ method.now.code }
    requires numbers { length operands.now ≡ length (operations method.now.code) }
    ensures exact { Answers result (code_within operands.now caught.now method.now) }
{
    let items = method.code.as_slice();
    let starts = starts_of(alloc, operands, items)?;
    let bytes = bytes_of(alloc, labels, starts.as_slice(), operands, items)?;
    let insns = insns_of(alloc, labels, operands, items)?;
    let handlers = handlers_of(alloc, labels, caught, method.catches.as_slice())?;
    let starts = widened(alloc, starts.as_slice())?;
    Ok(Code {
        max_stack: method.max_stack,
        max_locals: method.max_locals,
        layout: Layout { bytes, starts },
        insns,
        handlers,
        attributes: Items::new(alloc),
    })
}
