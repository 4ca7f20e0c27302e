//! The text of a table.

ghost use Rattle.std.specs.Prelude.{◌≡◌, ◌≤◌, IfOk, count_by, length};
ghost use Rattle.std.specs.String.{string_bytes};
ghost use Rattle.campaign_text.specs.TableTexts.{is_cycle, table_text};

use crate::line::{job_line, totals_line};
use campaign::{JobResult, Table};
use std::alloc::{AllocError, Global};

/// Returns the number of results with a cycle.
fn count_cycles(results: &[JobResult]) -> u64
    ensures count { result ≡ count_by is_cycle results.now }
    ensures most { result ≤ length results.now }
{
    let mut cycles = 0;
    for job in results {
        if job.atomicity.has_cycle() {
            cycles += 1;
        }
    }
    cycles
}

/// Returns the text of a table: a line for each job, in ascending order, and a last line that counts them. `first` is
/// the number of the first job.
#[tactic(auto, using(crate::proofs::TextLaws::one_more))]
pub fn table_text(alloc: Global, first: u64, table: &Table) -> Result<String, AllocError>
    ensures { IfOk result (λ text. string_bytes text ≡ table_text first table.now.results.items) }
{
    let results = table.results.as_slice();
    let mut text = String::new(alloc);
    for (place, job) in results.iter().enumerate() {
        let number = first.checked_add(place as u64).ok_or(AllocError)?;
        text.push_str(job_line(alloc, number, *job)?.as_str())?;
    }
    let jobs = results.len() as u64;
    let cycles = count_cycles(results);
    text.push_str(totals_line(alloc, jobs - cycles, cycles, jobs)?.as_str())?;
    Ok(text)
}
