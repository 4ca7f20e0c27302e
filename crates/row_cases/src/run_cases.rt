//! Runs the cases of a file.

use crate::case_run::CaseRun;
use crate::make::program;
use crate::setting;
use crate::shown::shown;
use crate::stop::{Stop, refused};
use cases::{Case, cases_of};
use machine::Machine;
use program::Program;
use std::alloc::{AllocError, Global};

/// The sections with wanted results.
const WANTS: [&str; 4] = ["turns", "outcomes", "items", "wants"];

/// The numbers of cases with the wanted results, and of those with others.
#[derive(Clone, Copy, Default)]
pub struct Tally {
    pub alike: usize,
    pub otherwise: usize,
}

impl Tally {
    /// Returns the tally with one more case.
    fn count(self, alike: bool) -> Tally {
        if alike {
            Tally {
                alike: self.alike.saturating_add(1),
                ..self
            }
        } else {
            Tally {
                otherwise: self.otherwise.saturating_add(1),
                ..self
            }
        }
    }

    /// Returns the sum of two tallies.
    pub fn with(self, other: Tally) -> Tally {
        Tally {
            alike: self.alike.saturating_add(other.alike),
            otherwise: self.otherwise.saturating_add(other.otherwise),
        }
    }
}

/// Decides whether a case is about a run, and isn't a group of sources.
fn is_run(case: &Case<'_>) -> bool {
    WANTS.iter().any(|kind| case.section(*kind).is_some())
}

/// Appends the wanted and the shown text, if they differ.
fn compare(out: &mut String, wanted: &str, shown: &str) -> Result<(), AllocError> {
    if wanted == shown {
        return Ok(());
    }
    write!(out, "- wanted:\n{wanted}\n- shown:\n{shown}\n")
}

/// Appends the differences between a case's sections and its turns.
fn compare_case_run(
    case: &Case<'_>,
    case_run: &CaseRun,
    out: &mut String,
) -> Result<(), AllocError> {
    for section in case.sections.iter() {
        if let Some(lines) = case_run.lines(section.kind) {
            compare(out, section.lines, lines)?;
        }
    }
    Ok(())
}

/// Appends the differences between the wanted lines of a case and those that the machine shows.
fn compare_machine(
    alloc: Global,
    case: &Case<'_>,
    machine: &Machine<'_>,
    case_run: &CaseRun,
    out: &mut String,
) -> Result<(), AllocError> {
    for want in case.lines("wants").unwrap_or("").lines() {
        let shown = shown(alloc, machine, case_run, want)?;
        compare(out, want, shown.as_str())?;
    }
    Ok(())
}

/// Returns the machine of a case, before its turns.
fn new_machine<'p>(
    alloc: Global,
    case: &Case<'_>,
    program: &'p Program,
) -> Result<Machine<'p>, Stop> {
    let entry = setting::entry(alloc, case)?;
    let made = Machine::new(alloc, program, setting::limits(case), &entry);
    drop(entry);
    match made {
        Ok(machine) => Ok(machine),
        Err(fault) => Err(refused(alloc, &fault)),
    }
}

/// Takes the turns of a case.
fn case_run_of(
    alloc: Global,
    case: &Case<'_>,
    machine: &mut Machine<'_>,
) -> Result<CaseRun, AllocError> {
    match case.words("choices") {
        Some(words) => {
            let choices = setting::choices(alloc, words)?;
            CaseRun::of_choices(alloc, machine, choices.as_slice())
        }
        None => CaseRun::of_own_turns(alloc, machine),
    }
}

/// Appends the differences of a case's turns, and of the machine after them, from the wanted results.
fn compare_all(
    alloc: Global,
    case: &Case<'_>,
    machine: &Machine<'_>,
    case_run: &CaseRun,
    out: &mut String,
) -> Result<(), AllocError> {
    compare_case_run(case, case_run, out)?;
    compare_machine(alloc, case, machine, case_run, out)
}

/// Takes a case's turns, and appends the differences from the wanted results.
fn take_case_run(
    alloc: Global,
    case: &Case<'_>,
    machine: &mut Machine<'_>,
    out: &mut String,
) -> Result<CaseRun, AllocError> {
    let case_run = case_run_of(alloc, case, machine)?;
    let compared = compare_all(alloc, case, machine, &case_run, out);
    case_run.unless_failed(compared)
}

/// Runs a case turn by turn, and appends the differences from its wanted results.
fn put_case_run(
    alloc: Global,
    program: &Program,
    case: &Case<'_>,
    out: &mut String,
) -> Result<CaseRun, Stop> {
    let mut machine = new_machine(alloc, case, program)?;
    let taken = take_case_run(alloc, case, &mut machine, out);
    drop(machine);
    Ok(taken?)
}

/// Decides whether the same choices in one run have the same results.
fn is_one_run(
    alloc: Global,
    program: &Program,
    case: &Case<'_>,
    case_run: &CaseRun,
) -> Result<bool, Stop> {
    let mut machine = new_machine(alloc, case, program)?;
    let is_same = case_run.is_of_one_run(&mut machine);
    drop(machine);
    Ok(is_same)
}

/// Appends a line if the same choices in one run have other results.
fn put_run(
    alloc: Global,
    program: &Program,
    case: &Case<'_>,
    case_run: &CaseRun,
    out: &mut String,
) -> Result<(), Stop> {
    if !is_one_run(alloc, program, case, case_run)? {
        out.push_str("- the same choices in one run give otherwise\n")?;
    }
    Ok(())
}

/// Runs a case turn by turn and in one run, and appends the differences from its wanted results.
fn put_case_runs(
    alloc: Global,
    program: &Program,
    case: &Case<'_>,
    out: &mut String,
) -> Result<(), Stop> {
    let case_run = put_case_run(alloc, program, case, out)?;
    let put = put_run(alloc, program, case, &case_run, out);
    drop(case_run);
    put
}

/// Makes the program of a case, and appends the differences of its run from the wanted results.
fn put_differences(
    alloc: Global,
    cases: &[Case<'_>],
    case: &Case<'_>,
    out: &mut String,
) -> Result<(), Stop> {
    let program = program(alloc, cases, case)?;
    let put = put_case_runs(alloc, &program, case, out);
    drop(program);
    put
}

/// Returns the differences between a case's results and its wanted ones.
fn differences(alloc: Global, cases: &[Case<'_>], case: &Case<'_>) -> Result<String, AllocError> {
    let mut out = String::new(alloc);
    match put_differences(alloc, cases, case, &mut out) {
        Ok(()) => {}
        Err(Stop::Refused(fault)) => {
            let fault = format!(in alloc; "fault {}", fault.as_str())?;
            compare(&mut out, case.lines("wants").unwrap_or(""), fault.as_str())?;
        }
        Err(Stop::Memory) => out.push_str("- there was no memory\n")?,
    }
    Ok(out)
}

/// Runs the cases of a file, appends those that differ to a text, and returns the tally.
pub fn run_cases(alloc: Global, file: &str, out: &mut String) -> Result<Tally, AllocError> {
    let cases = cases_of(alloc, file)?;
    let mut tally = Tally::default();
    for case in cases.iter() {
        if is_run(case) {
            let differences = differences(alloc, cases.as_slice(), case)?;
            if !differences.is_empty() {
                write!(out, "== {}\n{}", case.name, differences.as_str())?;
            }
            tally = tally.count(differences.is_empty());
        }
    }
    Ok(tally)
}
