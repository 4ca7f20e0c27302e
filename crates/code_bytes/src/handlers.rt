//! Makes the exception table of a method (JVMS 4.7.3). Its bounds and targets are places of instructions.

ghost use Rattle.std.specs.Prelude.{◌≡◌, ◌≤◌, length, IfOk};
ghost use Rattle.jasmin.specs.Denote.{operations};
ghost use Rattle.assembly.specs.CodeOf.{handler_of, handlers_from};

use crate::targets::target_of;
use jasmin::source::CatchLine;
use jvms_file::class_file::Handler;
use shared_data::items::Items;
use source_labels::Labels;
use std::alloc::{AllocError, Global};

/// Returns the handler of a catch whose class is this pool entry, or 0 for all.
fn handler_of(labels: &Labels<'_>, number: u16, catch: &CatchLine) -> Handler
    requires { length (operations labels.now) ≤ 65535 }
    ensures { result ≡ handler_of labels.now number catch.now }
{
    Handler {
        start: target_of(labels, &catch.from),
        end: target_of(labels, &catch.to),
        target: target_of(labels, &catch.using),
        catch_type: number,
    }
}

/// Returns the handlers of catches whose classes are these pool entries.
#[tactic(auto, unfolding(assembly::specs::CodeOf::handlers_from))]
pub(crate) fn handlers_of(
    alloc: Global,
    labels: &Labels<'_>,
    caught: &[u16],
    catches: &[CatchLine],
) -> Result<Items<Handler>, AllocError>
    requires { length (operations labels.now) ≤ 65535 }
    ensures { IfOk result (λ handlers. handlers ≡ handlers_from labels.now caught.now catches.now) }
{
    let mut handlers = Items::with_capacity(alloc, caught.len())?;
    let mut numbers = caught;
    let mut rest = catches;
    while let [number, others @ ..] = numbers {
        let [catch, behind @ ..] = rest else {
            return Ok(handlers);
        };
        handlers.push(handler_of(labels, *number, catch))?;
        numbers = others;
        rest = behind;
    }
    Ok(handlers)
}
