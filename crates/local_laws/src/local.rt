//! Tests of instructions and decisions: whether a turn is a local call or return. Meets `specs/Local.antt`.

ghost use Rattle.std.specs.Prelude.{◌≡◌, Some};
ghost use Rattle.local_laws.specs.Local.{calls_or_returns, is_local_action, is_local_decision};

use jvms_file::insn::Simple;
use jvms_machine::action::{Action, Decision, Lock};
use jvms_program::program::Instruction;

/// Decides whether an instruction is a call or a return.
#[inline]
pub fn calls_or_returns(instruction: &Instruction) -> bool
    ensures { result ≡ calls_or_returns (Some instruction.now) }
{
    match instruction {
        Instruction::Simple(Simple::Return(_)) | Instruction::Invoke(_, _) => true,
        _ => false,
    }
}

/// Decides whether an action is a call that enters no monitor, or a return that leaves none and doesn't end its thread.
#[inline]
fn is_local_action<C, T>(action: &Action<C, T>) -> bool
    ensures { result ≡ is_local_action action.now }
{
    match action {
        Action::Calls { lock, .. } => match lock {
            Lock::Nothing => true,
            _ => false,
        },
        Action::Returns { unlock, .. } => unlock.is_none(),
        _ => false,
    }
}

/// Decides whether a turn of this decision is a call that enters no monitor, or a return that leaves none and doesn't end
/// its thread.
#[inline]
pub fn is_local<C, T>(decision: &Decision<C, T>) -> bool
    ensures { result ≡ is_local_decision decision.now }
{
    match decision {
        Decision::Stays(_) => false,
        Decision::Applies(action) => is_local_action(action),
    }
}
