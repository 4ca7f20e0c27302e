//! Feeds a trace to a checker.

ghost use Rattle.std.specs.Prelude.{◌≡◌, [], IfOk, IfErr, None};
ghost use Rattle.atom_graph.specs.Checking.{Fed};
ghost use Rattle.trace_check.specs.Checks.{IsRefused, first_refused, fed_nothing};

use crate::fault::CheckFault;
use atom_graph::Checker;
use atom_spec::Spec;
use jvms_machine::trace::Item;
use std::alloc::Global;

/// Returns a checker that was fed all items. Fails at the first item that it refuses.
pub(crate) fn fed(alloc: Global, spec: Spec, items: &[Item]) -> Result<Checker, CheckFault>
    ensures taken { IfOk result (λ checker. first_refused (fed_nothing spec) 1 items.now ≡ None) }
    ensures checker { IfOk result
        (λ checker. checker ≡ record { lines = spec; items = items.now }) }
    ensures fault { IfErr result (IsRefused (first_refused (fed_nothing spec) 1 items.now)) }
{
    let mut checker = Checker::new(alloc, spec)?;
    for (place, item) in items.iter().enumerate() {
        if let Err(fault) = checker.feed(item) {
            return Err(CheckFault::of_item(place + 1, fault));
        }
    }
    Ok(checker)
}
