//! Outcomes of turns and the status of a machine, as the debugger writes them.

ghost use Rattle.std.specs.Prelude.{◌≡◌, ◌++◌, IfOk, OnOk};
ghost use Rattle.std.specs.String.{string_bytes};
ghost use Rattle.machine_text.specs.Outcomes.{blocked_text, cause_text, outcome_text, status_text};

use crate::place::put_initialisation;
use escapes::put_counted;
use jvms_machine::machine::{BadCause, BlockedOn, Outcome, Status};
use program::Program;
use std::alloc::{AllocError, Global};

/// Returns the name of a status.
pub fn status_name(status: Status) -> &'static str
    ensures { result.now ≡ status_text status }
{
    match status {
        Status::Finished => "Finished",
        Status::Running => "Running",
        Status::Stalled => "Stalled",
        Status::Deadlocked => "Deadlocked",
    }
}

/// Returns the name of a cause.
fn cause_name(cause: BadCause) -> &'static str
    ensures { result.now ≡ cause_text cause }
{
    match cause {
        BadCause::FellOff => "FellOff",
        BadCause::OutOfProfile => "OutOfProfile",
        BadCause::Depth => "Depth",
        BadCause::Kind => "Kind",
        BadCause::Local => "Local",
    }
}

/// Appends what a blocked thread waits for.
fn put_blocked(out: &mut String, program: &Program, on: BlockedOn) -> Result<(), AllocError>
    ensures { OnOk result (string_bytes out.new ≡ string_bytes out.old
        ++ blocked_text program.now on) }
{
    match on {
        BlockedOn::Monitor { reference, owner } => {
            put_counted(out, "monitor ", u64::from(reference))?;
            put_counted(out, " by ", u64::from(owner))
        }
        BlockedOn::Initialisation { class, owner } => {
            put_initialisation(out, program, class)?;
            put_counted(out, " by ", u64::from(owner))
        }
        BlockedOn::Join { thread } => put_counted(out, "join ", u64::from(thread)),
        BlockedOn::Wait { reference } => put_counted(out, "wait ", u64::from(reference)),
    }
}

/// Appends an outcome, with what a blocked thread waits for and the cause of a Bad turn. If there is no memory, part of
/// the text may have been appended.
pub(crate) fn put_outcome(
    out: &mut String,
    program: &Program,
    outcome: Outcome,
) -> Result<(), AllocError>
    ensures { OnOk result (string_bytes out.new ≡ string_bytes out.old
        ++ outcome_text program.now outcome) }
{
    match outcome {
        Outcome::Ran => out.push_str("Ran"),
        Outcome::Raised => out.push_str("Raised"),
        Outcome::Ended { .. } => out.push_str("Ended"),
        Outcome::NoThread => out.push_str("NoThread"),
        Outcome::Blocked { on } => {
            out.push_str("Blocked ")?;
            put_blocked(out, program, on)
        }
        Outcome::Bad { cause } => {
            out.push_str("Bad ")?;
            out.push_str(cause_name(cause))
        }
    }
}

/// Returns the text of an outcome, with what a blocked thread waits for and the cause of a Bad turn.
pub fn outcome_text(
    alloc: Global,
    program: &Program,
    outcome: Outcome,
) -> Result<String, AllocError>
    ensures { IfOk result (λ s. string_bytes s ≡ outcome_text program.now outcome) }
{
    let mut text = String::new(alloc);
    put_outcome(&mut text, program, outcome)?;
    Ok(text)
}
