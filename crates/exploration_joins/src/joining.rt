//! Joins what the parts of an exploration found.

ghost use Rattle.std.specs.Prelude.{◌≡◌, ◌≤◌, ℕ, IfErr, IfOk, MatchBool, MatchOption, filter, map};
ghost use Rattle.exploration_joins.specs.Joins.{AreCoveredBelow, AreOfOne, AreSame, IsCoveredBy, IsFirstRepeated, IsFoundBy, IsJoined, IsReason, covers, parts_of};

use crate::alike::{are_of_one, first_covered};
use crate::fault::JoinFault;
use crate::found::Found;
use crate::joined::Joined;
use crate::levels::sums;
use crate::numbers::{first_missing, first_twice, sort};
use crate::order::first_failing;
use crate::part::PartText;
use std::alloc::{AllocError, Global};

/// Returns the numbers of the parts.
fn numbers_of(alloc: Global, parts: &[PartText]) -> Result<Vec<u64>, AllocError>
    ensures { IfOk result (λ numbers. numbers.items ≡ map (λ part. part.part.index) parts.now) }
{
    parts.iter().map(|part| part.part.index).collect(alloc)
}

/// Returns the numbers of the parts that found that all is covered.
fn covered_numbers(alloc: Global, parts: &[PartText]) -> Result<Vec<u64>, AllocError>
    ensures { IfOk result (λ numbers. numbers.items ≡ map (λ part. part.part.index)
        (filter (λ part. covers part.found) parts.now)) }
{
    let mut numbers = Vec::new(alloc);
    for place in 0..parts.len() {
        let part = &parts[place];
        if part.found.covers() {
            numbers.push(part.part.index)?;
        }
    }
    Ok(numbers)
}

/// Returns the least number that two parts have.
fn first_repeated(alloc: Global, parts: &[PartText]) -> Result<Option<u64>, AllocError>
    ensures { IfOk result (λ first. MatchOption first ((index : ℕ) → parts_of index parts.now ≤ 1)
        (IsFirstRepeated parts.now)) }
{
    let mut numbers = numbers_of(alloc, parts)?;
    sort(&mut numbers);
    Ok(first_twice(numbers.as_slice()))
}

/// Returns whether a part of each number below this one found that all is covered.
fn cover(alloc: Global, parts: &[PartText], count: u64) -> Result<bool, AllocError>
    ensures { IfOk result (λ all. MatchBool all (AreCoveredBelow parts.now count)
        (AreCoveredBelow parts.now count → ⊥)) }
{
    let mut numbers = covered_numbers(alloc, parts)?;
    sort(&mut numbers);
    Ok(count <= first_missing(numbers.as_slice()))
}

/// Returns what was covered by all parts, or `Stopped`.
fn covered_by(alloc: Global, parts: &[PartText]) -> Result<Found, AllocError>
    requires { AreOfOne parts.now }
    ensures { IfOk result (IsCoveredBy parts.now) }
{
    let Some(first) = parts.first() else {
        return Ok(Found::Stopped);
    };
    let Some(words) = first_covered(parts) else {
        return Ok(Found::Stopped);
    };
    if !cover(alloc, parts, first.part.count)? {
        return Ok(Found::Stopped);
    }
    let words = String::from_str(alloc, words)?;
    Ok(Found::Covered { words })
}

/// Returns a copy of what was found.
fn copied(alloc: Global, found: &Found) -> Result<Found, AllocError>
    ensures { IfOk result (AreSame found.now) }
{
    match found {
        Found::Failing { departures, words } => {
            let words = String::from_str(alloc, words.as_str())?;
            let departures = Vec::from_slice(alloc, departures.as_slice())?;
            Ok(Found::Failing { departures, words })
        }
        Found::Covered { words } => {
            let words = String::from_str(alloc, words.as_str())?;
            Ok(Found::Covered { words })
        }
        Found::Stopped => Ok(Found::Stopped),
    }
}

/// Returns what parts found together, at this number of levels.
fn found_by(alloc: Global, parts: &[PartText], levels: usize) -> Result<Found, AllocError>
    requires { AreOfOne parts.now }
    ensures { IfOk result (IsFoundBy parts.now levels) }
{
    if parts.is_empty() {
        return Ok(Found::Stopped);
    }
    let place = first_failing(parts, levels);
    let first = &parts[place];
    if first.found.fails_below(levels) {
        return copied(alloc, &first.found);
    }
    covered_by(alloc, parts)
}

/// Joins what the parts of an exploration found, in any order.
///
/// # Errors
///
/// T05 if the parts aren't of the same number of parts, if two that cover all differ in what they cover, or if a sum exceeds
/// 2^64 - 1. Else T04 if two have the same number.
pub fn join(alloc: Global, parts: &[PartText]) -> Result<Joined, JoinFault>
    ensures joined { IfOk result (IsJoined parts.now) }
    ensures reason { IfErr result (IsReason parts.now) }
{
    if !are_of_one(parts) {
        return Err(JoinFault::Other);
    }
    let Some(levels) = sums(alloc, parts)? else {
        return Err(JoinFault::Other);
    };
    if let Some(index) = first_repeated(alloc, parts)? {
        return Err(JoinFault::Repeated { index });
    }
    let found = found_by(alloc, parts, levels.len())?;
    Ok(Joined { levels, found })
}
