//! Makes the text of a verdict.

ghost use Rattle.std.specs.Prelude.{◌≡◌, ◌≢◌, IfOk, IfErr};
ghost use Rattle.std.specs.String.{string_bytes};
ghost use Rattle.velodrome.specs.Cycles.{AreAtomic};
ghost use Rattle.velodrome.specs.Verdicts.{IsVerdict};
ghost use Rattle.atom_graph.specs.Checking.{state_of_fed};
ghost use Rattle.trace_check.specs.Checks.{AreSerialLines, IsChecked, IsFault, IsFedText, IsPart, IsSaid, IsSerialPart, explained_part};

use crate::details::Details;
use crate::fault::CheckFault;
use crate::feeding::fed;
use atom_graph::Checker;
use atom_spec::Spec;
use jvms_machine::trace::Item;
use report::{explain, serial_lines, verdict_line};
use std::alloc::{AllocError, Global};
use velodrome::verdict::Verdict;

/// The verdict on a trace, and its text.
#[derive(Debug, Drop)]
pub struct Checked {
    pub verdict: Verdict,
    /// The verdict's line, and the requested details.
    pub text: String,
}

/// Returns the lines of the events of an atomic trace in a serial order.
fn atomic_part(alloc: Global, checker: &Checker, items: &[Item]) -> Result<String, AllocError>
    requires { AreAtomic (state_of_fed checker.now).events }
    ensures { IfOk result
        (λ part. AreSerialLines (state_of_fed checker.now) items.now (string_bytes part)) }
{
    match checker.serial()? {
        Some(numbers) => serial_lines(alloc, items, numbers.as_slice()),
        // An atomic trace has a serial order.
        None => Ok(String::new(alloc)),
    }
}

/// Returns what follows the line of an atomic trace.
fn serial_part(
    alloc: Global,
    checker: &Checker,
    items: &[Item],
    serial: bool,
) -> Result<String, AllocError>
    requires atomic { AreAtomic (state_of_fed checker.now).events }
    requires items { items.now ≡ checker.now.items }
    ensures { IfOk result (λ part. IsSerialPart checker.now serial (string_bytes part)) }
{
    if serial {
        atomic_part(alloc, checker, items)
    } else {
        Ok(String::new(alloc))
    }
}

/// Returns what follows the line of a cycle.
fn explained_part(
    alloc: Global,
    checker: &Checker,
    explains: bool,
    verdict: &Verdict,
) -> Result<String, AllocError>
    ensures { IfOk result
        (λ part. string_bytes part ≡ explained_part checker.now explains verdict.now) }
{
    if explains {
        explain(alloc, checker, &[], verdict)
    } else {
        Ok(String::new(alloc))
    }
}

/// Returns what follows the line of a verdict.
fn part_of(
    alloc: Global,
    checker: &Checker,
    items: &[Item],
    verdict: &Verdict,
    details: Details,
) -> Result<String, AllocError>
    requires verdict { IsVerdict (state_of_fed checker.now) verdict.now }
    requires items { items.now ≡ checker.now.items }
    ensures { IfOk result (λ part. IsPart checker.now details verdict.now (string_bytes part)) }
{
    match verdict {
        Verdict::Atomic { .. } => serial_part(alloc, checker, items, details.serial),
        Verdict::Cycle { .. } => explained_part(alloc, checker, details.explains, verdict),
    }
}

/// Returns the verdict on the items that a checker was fed, with its text.
fn verdict_with_text(
    alloc: Global,
    checker: &Checker,
    items: &[Item],
    details: Details,
) -> Result<Checked, AllocError>
    requires items { items.now ≡ checker.now.items }
    ensures verdict { IfOk result (λ c. IsVerdict (state_of_fed checker.now) c.verdict) }
    ensures text { IfOk result (λ c. IsSaid checker.now details c.verdict (string_bytes c.text)) }
{
    let verdict = checker.verdict()?;
    let mut text = verdict_line(alloc, &verdict, checker.counts())?;
    let part = part_of(alloc, checker, items, &verdict, details)?;
    text.push_str(part.as_str())?;
    Ok(Checked { verdict, text })
}

/// Returns the verdict of a specification on the trace of a text, with the requested details.
pub(crate) fn say(
    alloc: Global,
    spec: Spec,
    text: &str,
    details: Details,
) -> Result<Checked, CheckFault>
    ensures exact { IfOk result
        (λ c. IsChecked spec text.now details c.verdict (string_bytes c.text)) }
    ensures fault { IfErr result (IsFault spec text.now) }
    ensures quiet { IfErr result (λ fault. fault ≢ CheckFault.Output) }
{
    let trace = trace_text::read(alloc, text)?;
    let checker = fed(alloc, spec, trace.items())?;
    let checked = verdict_with_text(alloc, &checker, trace.items(), details)?;
    Ok(checked)
}

/// Feeds the trace of a text to a checker.
///
/// # Errors
///
/// X01 and F01 as `check` has them. F02 past 100,000,000 events. X02, F03 and Memory if memory ran out.
pub fn fed_text(alloc: Global, spec: Spec, text: &str) -> Result<Checker, CheckFault>
    ensures fed { IfOk result (IsFedText spec text.now) }
    ensures fault { IfErr result (IsFault spec text.now) }
    ensures quiet { IfErr result (λ fault. fault ≢ CheckFault.Output) }
{
    let trace = trace_text::read(alloc, text)?;
    let checker = fed(alloc, spec, trace.items())?;
    Ok(checker)
}
