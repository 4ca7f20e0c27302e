//! Makes the lines of a table.

ghost use Rattle.std.specs.Prelude.{◌≡◌, ◌++◌, IfOk, OnOk};
ghost use Rattle.std.specs.String.{string_bytes};
ghost use Rattle.campaign_text.specs.TableTexts.{atomicity_text, job_line, result_text, totals_line};

use campaign::{Atomicity, JobResult};
use machine_text::status_name;
use std::alloc::{AllocError, Global};

/// Returns the text of a job's atomicity.
fn atomicity_text(alloc: Global, atomicity: Atomicity) -> Result<String, AllocError>
    ensures { IfOk result (λ text. string_bytes text ≡ atomicity_text atomicity) }
{
    match atomicity {
        Atomicity::Atomic => String::from_str(alloc, "atomic"),
        Atomicity::Cycle { first_at } => {
            let text = format!(in alloc; "cycle at {first_at}")?;
            Ok(text)
        }
    }
}

/// Appends the words of a result: `atomic status S turns N events M`, or `cycle at E status ..`.
pub fn push_result(alloc: Global, text: &mut String, job: JobResult) -> Result<(), AllocError>
    ensures { OnOk result (string_bytes text.new ≡ string_bytes text.old ++ result_text job) }
{
    let atomicity = atomicity_text(alloc, job.atomicity)?;
    text.push_str(atomicity.as_str())?;
    text.push_str(" status ")?;
    text.push_str(status_name(job.status))?;
    let turns = job.turns;
    let events = job.events;
    let counts = format!(in alloc; " turns {turns} events {events}")?;
    text.push_str(counts.as_str())?;
    Ok(())
}

/// Returns the line of a job: `job K` and the words of its result, with its end.
pub(crate) fn job_line(alloc: Global, number: u64, job: JobResult) -> Result<String, AllocError>
    ensures { IfOk result (λ line. string_bytes line ≡ job_line number job) }
{
    let mut line = format!(in alloc; "job {number} ")?;
    push_result(alloc, &mut line, job)?;
    line.push_str("\n")?;
    Ok(line)
}

/// Returns the last line: `jobs N atomic A cycle C`, with its end.
pub(crate) fn totals_line(
    alloc: Global,
    atomic: u64,
    cycle: u64,
    jobs: u64,
) -> Result<String, AllocError>
    ensures { IfOk result (λ line. string_bytes line ≡ totals_line jobs atomic cycle) }
{
    let line = format!(in alloc; "jobs {jobs} atomic {atomic} cycle {cycle}\n")?;
    Ok(line)
}
