//! Constants (JVMS 6.5 aconst_null, iconst, lconst, bipush, sipush, ldc, ldc2_w).

ghost use Rattle.std.specs.Prelude.{◌≡◌};
ghost use Rattle.jvms_machine.specs.Activations.{HasRoom, IfDoes};
ghost use Rattle.jvms_machine.specs.Constants.{pushes_value, push_decision, constant_decision};

use crate::decisions::pushes;
use crate::places::value_size;
use frames::SeenFrame;
use jvms_file::insn;
use jvms_machine::action::FrameDecision;
use jvms_machine::machine::BadCause;
use jvms_machine::value::Value;
use jvms_program::program::Loadable;

#[inline(always)]
fn push_value(value: Value, frame: &SeenFrame) -> FrameDecision
    ensures decision { result ≡ pushes_value frame.now.body frame.now.activation value }
    ensures room { IfDoes result (HasRoom frame.now.body frame.now.activation) }
{
    if frame.has_depth(0, value_size(value)) {
        pushes(0, value)
    } else {
        FrameDecision::Stops(BadCause::Depth)
    }
}

/// Decides to push an int.
#[inline(always)]
pub(crate) fn push_int(n: i32, frame: &SeenFrame) -> FrameDecision
    ensures decision { result ≡ pushes_value frame.now.body frame.now.activation (Value.Int n) }
    ensures room { IfDoes result (HasRoom frame.now.body frame.now.activation) }
{
    push_value(Value::Int(n), frame)
}

/// Decides to push a long.
#[inline(always)]
pub(crate) fn push_long(n: i64, frame: &SeenFrame) -> FrameDecision
    ensures decision { result ≡ pushes_value frame.now.body frame.now.activation (Value.Long n) }
    ensures room { IfDoes result (HasRoom frame.now.body frame.now.activation) }
{
    push_value(Value::Long(n), frame)
}

#[inline(never)]
pub(crate) fn push(what: insn::Push, frame: &SeenFrame) -> FrameDecision
    ensures decision { result ≡ push_decision frame.now.body what frame.now.activation }
    ensures room { IfDoes result (HasRoom frame.now.body frame.now.activation) }
{
    match what {
        insn::Push::Null => push_value(Value::Null, frame),
        insn::Push::Int(n) => push_int(i32::from(n), frame),
        insn::Push::Long(n) => push_long(i64::from(n), frame),
        insn::Push::Float(_) | insn::Push::Double(_) => {
            FrameDecision::Stops(BadCause::OutOfProfile)
        }
    }
}

/// Decides JVMS 6.5 `ldc` and `ldc2_w` for numbers. Strings and classes need more than the frame, so they are `Beyond`.
#[inline(never)]
pub(crate) fn constant(what: &Loadable, frame: &SeenFrame) -> FrameDecision
    ensures decision { result ≡ constant_decision frame.now.body what.now frame.now.activation }
    ensures room { IfDoes result (HasRoom frame.now.body frame.now.activation) }
{
    match what {
        Loadable::Integer(n) => push_int(*n, frame),
        Loadable::Long(n) => push_long(*n, frame),
        Loadable::Float(_) | Loadable::Double(_) => FrameDecision::Stops(BadCause::OutOfProfile),
        Loadable::String(_) | Loadable::Class(_) => FrameDecision::Beyond,
    }
}
