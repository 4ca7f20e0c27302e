//! The campaign of a program from class files and sources.

ghost use Rattle.std.specs.Prelude.{◌≡◌, ◌≢◌, length, IfErr, IfOk, IsTrue, OnOk};
ghost use Rattle.jvms_machine.specs.Opening.{start_of_entry};
ghost use Rattle.program_runs.specs.Faults.{IsProgramFault};
ghost use Rattle.campaign_text.specs.campaign.Tables.{IsTable};
ghost use Rattle.campaign_jobs.specs.Plans.{fits};
ghost use Rattle.campaign_desk.specs.Limits.{FitsLimits};
ghost use Rattle.campaigning.specs.Campaigns.{IsTableOf, fitting_program, program_for};
ghost use Rattle.campaigning.specs.Faults.{IsFault, IsHalt, NamesFile};

use crate::fault::CampaignFault;
use campaign_text::campaign::{DeskFault, Gate, Halted, Plan, Table, run_campaign};
use inputs::Input;
use judge::{JudgeFault, program_of};
use machine::Machine;
use program::Program;
use program_runs::ProgramFault;
use std::alloc::Global;
use std::sync::Wait;
use std::thread::Threads;

/// Refuses a plan if no machine of the program can be made for it.
fn fit(alloc: Global, program: &Program, plan: &Plan) -> Result<(), ProgramFault>
    ensures fits { OnOk result (IsTrue (fits program.now plan.now)) }
    ensures fault { IfErr result (λ fault.
        IsProgramFault fault (start_of_entry program.now plan.now.limits plan.now.entry)) }
{
    let machine = Machine::new(alloc, program, plan.limits, &plan.entry)?;
    drop(machine);
    Ok(())
}

/// Runs the campaign of a plan that fits.
fn run_fitting<G: Gate + Sync, R: Threads + Wait + Sync>(
    rt: &R,
    alloc: Global,
    program: &Program,
    plan: &Plan,
    workers: u64,
    gate: &G,
) -> Result<Table, CampaignFault>
    requires fits { IsTrue (fits program.now plan.now) }
    ensures table { IfOk result (λ table. IsTable program.now plan.now table.results.items) }
    ensures limits { OnOk result (FitsLimits plan.now.jobs workers) }
    ensures fault { IfErr result (λ fault. IsHalt plan.now.jobs workers fault) }
    ensures unwritten { IfErr result (λ fault. fault ≢ CampaignFault.Output) }
{
    match run_campaign(rt, alloc, program, plan, workers, gate) {
        Ok(table) => Ok(table),
        Err(Halted::TooManyJobs) => Err(CampaignFault::Desk(DeskFault::TooManyJobs)),
        Err(Halted::TooManyWorkers) => Err(CampaignFault::Desk(DeskFault::TooManyWorkers)),
        Err(Halted::Memory) => Err(CampaignFault::Desk(DeskFault::Memory)),
        Err(Halted::WorkerFailed { book, .. }) => {
            drop(book);
            Err(CampaignFault::WorkerFailed)
        }
    }
}

/// Runs the campaign of a plan on a program.
#[tactic(auto, using(crate::proofs::Fits::not_fitted))]
fn run_plan<G: Gate + Sync, R: Threads + Wait + Sync>(
    rt: &R,
    alloc: Global,
    program: &Program,
    plan: &Plan,
    workers: u64,
    gate: &G,
) -> Result<Table, CampaignFault>
    ensures table { IfOk result (λ table.
        IsTableOf plan.now (fitting_program plan.now program.now) table.results.items) }
    ensures limits { OnOk result (FitsLimits plan.now.jobs workers) }
    ensures fault { IfErr result (λ fault.
        IsFault plan.now.jobs workers fault (fitting_program plan.now program.now)) }
    ensures named { IfErr result (λ fault. NamesFile 0 fault) }
    ensures unwritten { IfErr result (λ fault. fault ≢ CampaignFault.Output) }
{
    if let Err(fault) = fit(alloc, program, plan) {
        return Err(CampaignFault::Judge(JudgeFault::from(fault)));
    }
    run_fitting(rt, alloc, program, plan, workers, gate)
}

/// Runs the campaign of a plan on the program of class files and sources.
#[tactic(auto, unfolding(crate::specs::Campaigns::program_for))]
pub(crate) fn run_inputs<G: Gate + Sync, R: Threads + Wait + Sync>(
    rt: &R,
    alloc: Global,
    inputs: &[Input],
    plan: &Plan,
    workers: u64,
    gate: &G,
) -> Result<Table, CampaignFault>
    ensures table { IfOk result (λ table.
        IsTableOf plan.now (program_for plan.now inputs.now) table.results.items) }
    ensures limits { OnOk result (FitsLimits plan.now.jobs workers) }
    ensures fault { IfErr result (λ fault.
        IsFault plan.now.jobs workers fault (program_for plan.now inputs.now)) }
    ensures named { IfErr result (λ fault. NamesFile (length inputs.now) fault) }
    ensures unwritten { IfErr result (λ fault. fault ≢ CampaignFault.Output) }
{
    let program = program_of(alloc, inputs)?;
    let table = run_plan(rt, alloc, &program, plan, workers, gate);
    drop(program);
    table
}
