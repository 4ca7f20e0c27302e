//! Turns targets into places.

ghost use Rattle.std.specs.Prelude.{◌≡◌};
ghost use Rattle.jvms_file.specs.Results.{results_of};
ghost use Rattle.jvms_file.specs.Reading.{Gives};
ghost use Rattle.insn.specs.Places.{place_or_fault, case_or_fault, table_or_fault, lookup_or_fault, insn_or_fault};

use crate::starts::Starts;
use jvms_file::fault::{ClassFault, ReadError};
use jvms_file::insn::{Insn, LookupSwitch, SwitchCase, TableSwitch};
use shared_data::boxed::Boxed;
use shared_data::items::Items;
use std::alloc::Global;

/// Returns the place of a target.
fn place(starts: &Starts, fault: ClassFault, target: u32) -> Result<u32, ReadError>
    ensures { Gives (λ x. x) result (place_or_fault starts.now fault target) }
{
    match starts.place_of(target) {
        Some(found) => Ok(found),
        None => Err(ReadError::Fault(fault)),
    }
}

/// Returns a case with a place for its target.
fn case(
    starts: &Starts,
    fault: ClassFault,
    switch_case: SwitchCase,
) -> Result<SwitchCase, ReadError>
    ensures { Gives (λ x. x) result (case_or_fault starts.now fault switch_case) }
{
    let target = place(starts, fault, switch_case.target)?;
    Ok(SwitchCase {
        value: switch_case.value,
        target,
    })
}

/// Returns the places of targets.
fn places(
    alloc: Global,
    starts: &Starts,
    fault: ClassFault,
    targets: &[u32],
) -> Result<Items<u32>, ReadError>
    ensures { Gives (λ x. x) result (results_of (place_or_fault starts.now fault) targets.now) }
{
    let mut found = Items::with_capacity(alloc, targets.len())?;
    for target in targets {
        let one = place(starts, fault, *target)?;
        found.push(one)?;
    }
    Ok(found)
}

/// Returns cases with places for their targets.
fn cases(
    alloc: Global,
    starts: &Starts,
    fault: ClassFault,
    switch_cases: &[SwitchCase],
) -> Result<Items<SwitchCase>, ReadError>
    ensures { Gives (λ x. x) result (results_of (case_or_fault starts.now fault) switch_cases.now) }
{
    let mut found = Items::with_capacity(alloc, switch_cases.len())?;
    for switch_case in switch_cases {
        let one = case(starts, fault, *switch_case)?;
        found.push(one)?;
    }
    Ok(found)
}

/// Returns a tableswitch with places for its targets.
fn table(
    alloc: Global,
    starts: &Starts,
    fault: ClassFault,
    switch: &TableSwitch,
) -> Result<TableSwitch, ReadError>
    ensures { Gives (λ x. x) result (table_or_fault starts.now fault switch.now) }
{
    let default = place(starts, fault, switch.default)?;
    let targets = places(alloc, starts, fault, switch.targets.as_slice())?;
    Ok(TableSwitch {
        default,
        low: switch.low,
        targets,
    })
}

/// Returns a lookupswitch with places for its targets.
fn lookup(
    alloc: Global,
    starts: &Starts,
    fault: ClassFault,
    switch: &LookupSwitch,
) -> Result<LookupSwitch, ReadError>
    ensures { Gives (λ x. x) result (lookup_or_fault starts.now fault switch.now) }
{
    let default = place(starts, fault, switch.default)?;
    let found = cases(alloc, starts, fault, switch.cases.as_slice())?;
    Ok(LookupSwitch {
        default,
        cases: found,
    })
}

/// Returns an instruction with places for its targets.
pub(crate) fn with_places(
    alloc: Global,
    starts: &Starts,
    fault: ClassFault,
    insn: &Insn,
) -> Result<Insn, ReadError>
    ensures { Gives (λ x. x) result (insn_or_fault starts.now fault insn.now) }
{
    match insn {
        Insn::Branch(how, target) => {
            let found = place(starts, fault, *target)?;
            Ok(Insn::Branch(*how, found))
        }
        Insn::Table(switch) => {
            let found = table(alloc, starts, fault, switch.get())?;
            Ok(Insn::Table(Boxed::new(alloc, found)?))
        }
        Insn::Lookup(switch) => {
            let found = lookup(alloc, starts, fault, switch.get())?;
            Ok(Insn::Lookup(Boxed::new(alloc, found)?))
        }
        Insn::Simple(simple) => Ok(Insn::Simple(*simple)),
        Insn::Constant(number) => Ok(Insn::Constant(*number)),
        Insn::Field(how, number) => Ok(Insn::Field(*how, *number)),
        Insn::Invoke(how, number) => Ok(Insn::Invoke(*how, *number)),
        Insn::Class(how, number) => Ok(Insn::Class(*how, *number)),
        Insn::MultiNewArray(number, count) => Ok(Insn::MultiNewArray(*number, *count)),
    }
}
