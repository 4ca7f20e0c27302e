//! Helpers of the decisions: the test of depth, and the commonest decisions (JVMS 4.10.1.4, 6.5).

ghost use Rattle.std.specs.Prelude.{◌≡◌, ◌+◌, ◌-◌, ◌&&◌, nat_le, length};
ghost use Rattle.jvms_machine.specs.Activations.{pushes, jumps};

use frames::Frame;
use jvms_machine::action::{FrameAction, FrameDecision};
use jvms_machine::value::Value;

/// Decides whether there are `takes` operands, and whether `gives` in their place fit `max_stack`.
#[inline(always)]
pub fn has_depth(frame: &Frame, takes: u8, gives: u8) -> bool
    ensures { result ≡ (nat_le takes (length frame.now.activation.operands)
        && nat_le (length frame.now.activation.operands - takes + gives) frame.now.body.max_stack) }
{
    frame.seen().has_depth(takes, gives)
}

/// Returns the decision to replace the topmost `takes` operands by a value.
#[inline(always)]
pub(crate) fn pushes(takes: u8, value: Value) -> FrameDecision
    ensures { result ≡ pushes takes value }
{
    FrameDecision::Does(FrameAction::Push { takes, value })
}

/// Returns the decision to remove the topmost `takes` operands and to set the pc.
#[inline(always)]
pub(crate) fn jumps(takes: u16, target: usize) -> FrameDecision
    ensures { result ≡ jumps takes target }
{
    FrameDecision::Does(FrameAction::Jump { takes, target })
}
