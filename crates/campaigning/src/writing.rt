//! Writes the text of a campaign's table.

ghost use Rattle.std.specs.Prelude.{◌≡◌, ◌≢◌, ◌+◌, length, IfErr, IfOk, IsErrOf, OnOk};
ghost use Rattle.std.specs.Io.KnownBytes.{Appends};
ghost use Rattle.judge.specs.declared.fault.JudgeFault.TheVariants as judge_fault;
ghost use Rattle.trace.specs.Bytes.{AppendsBeginning};
ghost use Rattle.campaign_text.specs.TableTexts.{table_text};
ghost use Rattle.campaign_desk.specs.Limits.{FitsLimits};
ghost use Rattle.campaigning.specs.Campaigns.{IsTableOf, WroteBeginning, program_for};
ghost use Rattle.campaigning.specs.Faults.{IsFault, NamesFile};

use crate::fault::CampaignFault;
use crate::running::run_inputs;
use campaign_text::campaign::{Gate, Plan, Table};
use campaign_text::table_text;
use inputs::Input;
use std::alloc::Global;
use std::sync::Wait;
use std::thread::Threads;
use trace::ByteOut;

/// Writes the text of a table whose first job has this number.
fn put_table<W: ByteOut>(
    alloc: Global,
    first: u64,
    table: &Table,
    output: &mut W,
) -> Result<(), CampaignFault>
    ensures written { OnOk result (Appends (W.written output.old) (W.written output.new)
        (table_text first table.now.results.items)) }
    ensures count { OnOk result (W.failures output.new ≡ W.failures output.old) }
    ensures beginning { IsErrOf result CampaignFault.Output → AppendsBeginning
        (W.written output.old) (W.written output.new) (table_text first table.now.results.items) }
    ensures failed { IsErrOf result CampaignFault.Output
        → W.failures output.new ≡ W.failures output.old + 1 }
    ensures untouched { IfErr result (λ fault. fault ≢ CampaignFault.Output
        → (fault ≡ CampaignFault.Judge judge_fault.Memory) × (output.new ≡ output.old)) }
    ensures named { IfErr result (λ fault. NamesFile 0 fault) }
{
    let text = table_text(alloc, first, table)?;
    output.write_all(text.as_bytes())?;
    Ok(())
}

/// Runs the jobs of a plan, on the program of class files and sources and on this number of workers, and writes the
/// text of the table. It waits for the workers.
///
/// # Errors
///
/// Those of `judge` come first. Then G01 for more than 1,000,000 jobs, G02 for no worker or more than 64. Then G04 or
/// G05 if memory ran out for the campaign.
pub fn write_table<G: Gate + Sync, R: Threads + Wait + Sync, W: ByteOut>(
    rt: &R,
    alloc: Global,
    inputs: &[Input],
    plan: &Plan,
    workers: u64,
    gate: &G,
    output: &mut W,
) -> Result<Table, CampaignFault>
    // For each job that it shows, the table has the atomicity of the run of that job's choices, and how it ended. It is
    // the same for every number of workers, every gate and every order of their steps.
    ensures table { IfOk result (λ table.
        IsTableOf plan.now (program_for plan.now inputs.now) table.results.items) }
    ensures limits { OnOk result (FitsLimits plan.now.jobs workers) }
    // Exactly the table's text was written.
    ensures written { IfOk result (λ table. Appends (W.written output.old) (W.written output.new)
        (table_text plan.now.first table.results.items)) }
    ensures count { OnOk result (W.failures output.new ≡ W.failures output.old) }
    // A fault is returned only if its condition holds. A fault of an input names one of these.
    ensures fault { IfErr result (λ fault.
        IsFault plan.now.jobs workers fault (program_for plan.now inputs.now)) }
    ensures named { IfErr result (λ fault. NamesFile (length inputs.now) fault) }
    ensures untouched { IfErr result
        (λ fault. fault ≢ CampaignFault.Output → output.new ≡ output.old) }
    // The fault is `Output` only if the writer failed. Then a prefix of the text was written.
    ensures failed { IsErrOf result CampaignFault.Output
        → W.failures output.new ≡ W.failures output.old + 1 }
    ensures beginning { IsErrOf result CampaignFault.Output → WroteBeginning plan.now
        (program_for plan.now inputs.now) (W.written output.old) (W.written output.new) }
{
    let table = run_inputs(rt, alloc, inputs, plan, workers, gate)?;
    match put_table(alloc, plan.first, &table, output) {
        Ok(()) => Ok(table),
        Err(fault) => {
            drop(table);
            Err(fault)
        }
    }
}
