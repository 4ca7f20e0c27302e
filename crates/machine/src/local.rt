//! Whether the next turn of a thread is local: whether it touches its own thread alone.

ghost use Rattle.std.specs.Prelude.{◌≡◌, ◌+◌, ◌<◌, ◌^◌, ◌||◌, ◌&&◌, Some, is_some};
ghost use Rattle.local_laws.specs.Local.{calls_or_returns, frame_action_in, is_local, is_local_decision};
ghost use Rattle.jvms_machine.specs.Steps.{frame_decision};
ghost use Rattle.invoke.specs.machine_parts.Machine.{decision_of};
ghost use Rattle.invoke.specs.machine_parts.Ready.{AreNumbered};
ghost use Rattle.machine.specs.CanTurn.{HaveTheirCode};

use crate::turn::decide;
use frames::Frame;
use invoke::machine_parts::Parts;
use jvms_machine::action::FrameDecision;
use jvms_machine::machine::ThreadId;
use jvms_machine::state::StackFrame;
use jvms_program::program::Instruction;
use local_laws::calls_or_returns;

/// Decides whether an instruction of a frame touches the frame alone.
fn is_of_frame(frame: &Frame, instruction: &Instruction) -> bool
    requires { frame.now.activation.place + 1 < 2 ^ 64 }
    ensures { result
        ≡ is_some (frame_action_in (frame_decision frame.now.body instruction.now frame.now.activation)) }
{
    match exec_ref::exec::decide(instruction, frame) {
        FrameDecision::Does(_) => true,
        FrameDecision::Throws(_) | FrameDecision::Stops(_) | FrameDecision::Beyond => false,
    }
}

/// Decides whether the next turn of a thread is a call that enters no monitor, or a return that leaves none and doesn't
/// end its thread.
#[tactic(auto, using(crate::proofs::LocalDecisions::decided_locally))]
fn is_local_call(parts: &Parts, t: ThreadId) -> bool
    requires numbered { AreNumbered parts.now.state }
    requires code { HaveTheirCode parts.now }
    ensures { result ≡ is_local_decision (decision_of parts.now t) }
{
    local_laws::is_local(&decide(parts, t))
}

/// Decides whether the turn of a thread at an instruction of its top call is local.
fn is_local_at(parts: &Parts, t: ThreadId, frame: &Frame, instruction: &Instruction) -> bool
    requires place { frame.now.activation.place + 1 < 2 ^ 64 }
    requires numbered { AreNumbered parts.now.state }
    requires code { HaveTheirCode parts.now }
    ensures { result
        ≡ (is_some (frame_action_in (frame_decision frame.now.body instruction.now frame.now.activation))
        || (calls_or_returns (Some instruction.now) && is_local_decision (decision_of parts.now t))) }
{
    is_of_frame(frame, instruction) || calls_or_returns(instruction) && is_local_call(parts, t)
}

/// Decides whether the turn of a thread is local.
pub(crate) fn is_local(parts: &Parts, t: ThreadId) -> bool
    requires numbered { AreNumbered parts.now.state }
    requires code { HaveTheirCode parts.now }
    ensures { result
        ≡ is_local parts.now.program parts.now.limits parts.now.start parts.now.state t }
{
    let Some(thread) = parts.threads.as_slice().get(t as usize) else {
        return false;
    };
    if thread.has_ended() || thread.pending().is_some() || thread.waits().is_some() {
        return false;
    }
    let Some(StackFrame::Call(frame)) = thread.frame(0) else {
        return false;
    };
    match frame.instruction() {
        None => false,
        Some(instruction) => is_local_at(parts, t, frame, instruction),
    }
}
