//! Joins the tables of parts.

ghost use Rattle.std.specs.Prelude.{◌≡◌, ◌++◌, IfOk, IfSome, OnOk};
ghost use Rattle.velodrome.specs.Cycles.{IsIn};
ghost use Rattle.campaign_text.specs.Joined.{AreChained, AreJoined, count_of, results_of};

use crate::fault::JoinFault;
use crate::part::Part;
use campaign::{JobResult, Table};
use std::alloc::{AllocError, Global};

/// Returns the first job of the part at a place, or 0 if there is no such part.
fn first_at(parts: &[Part], place: usize) -> u64 {
    match parts.get(place) {
        Some(part) => part.first,
        None => 0,
    }
}

/// Returns the places of the parts that have a job, in the order of their first jobs.
fn places_by_job(alloc: Global, parts: &[Part]) -> Result<Vec<usize>, AllocError> {
    let mut places = Vec::with_capacity(alloc, parts.len())?;
    for (place, part) in parts.iter().enumerate() {
        if !part.table.results.is_empty() {
            places.push(place)?;
        }
    }
    places.sort_unstable_by_key(|place| first_at(parts, *place));
    Ok(places)
}

/// Returns the part at a place, if it begins with this job.
fn part_from(parts: &[Part], place: usize, job: u64) -> Option<&Part>
    ensures among { IfSome result (λ part. IsIn part.now parts.now) }
    ensures first { IfSome result (λ part. part.now.first ≡ job) }
{
    let part = parts.get(place)?;
    if part.first == job { Some(part) } else { None }
}

/// Appends the results of a part.
fn append(results: &mut Vec<JobResult>, part: &Part) -> Result<(), AllocError>
    ensures { OnOk result (results.new.items ≡ results.old.items ++ results_of part.now) }
{
    results.extend_from_slice(part.table.results.as_slice())
}

/// Returns the results of consecutive parts from job 0 on, of the parts at these places in their order. They end before
/// the first part that doesn't begin with the next job.
#[tactic(auto, using(crate::proofs::Chains::none_chained, crate::proofs::Chains::one_more))]
fn chained(alloc: Global, parts: &[Part], places: &[usize]) -> Result<Vec<JobResult>, AllocError>
    ensures { IfOk result (λ results. AreChained parts.now results.items) }
{
    let mut results = Vec::new(alloc);
    for place in places {
        let Some(part) = part_from(parts, *place, results.len() as u64) else {
            return Ok(results);
        };
        append(&mut results, part)?;
    }
    Ok(results)
}

/// Returns the number of results of parts, or `None` if it exceeds 2^64 - 1.
#[tactic(auto, using(crate::proofs::Chains::count_more))]
fn count_of(parts: &[Part]) -> Option<usize>
    ensures { IfSome result (λ count. count ≡ count_of parts.now) }
{
    let mut count = 0usize;
    for part in parts {
        count = count.checked_add(part.table.results.len())?;
    }
    Some(count)
}

/// Returns the first job that two parts have. The places are those of the parts in the order of their first jobs.
fn repeated_job(parts: &[Part], places: &[usize]) -> Option<u64> {
    let mut next = 0;
    for place in places {
        let part = parts.get(*place)?;
        if part.first < next {
            return Some(part.first);
        }
        next = part.next();
    }
    None
}

/// Joins the tables of the parts of a campaign, in any order, to the table of the whole. Parts without a job are
/// ignored.
///
/// # Errors
///
/// T03 if two parts have the same job. Else T02 if no part has a job before the last.
pub fn join(alloc: Global, parts: &[Part]) -> Result<Table, JoinFault>
    // The results are those of consecutive parts from job 0 on, and no result is omitted.
    ensures { IfOk result (λ table. AreJoined parts.now table.results.items) }
{
    let places = places_by_job(alloc, parts)?;
    let results = chained(alloc, parts, places.as_slice())?;
    if let Some(count) = count_of(parts)
        && count == results.len()
    {
        return Ok(Table { results });
    }
    match repeated_job(parts, places.as_slice()) {
        Some(job) => Err(JoinFault::Repeated { job }),
        None => Err(JoinFault::Missing {
            job: results.len() as u64,
        }),
    }
}
