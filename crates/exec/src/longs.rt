//! Arithmetic on longs (JVMS 6.5 ladd to lxor, ldiv, lrem, lneg, lshl, lshr, lushr, i2l, l2i, lcmp).

ghost use Rattle.std.specs.Prelude.{◌≡◌};
ghost use Rattle.jvms_file.specs.declared.insn.LongInsn.TheVariants as long_insn;
ghost use Rattle.jvms_machine.specs.Activations.{HasRoom, IfDoes};
ghost use Rattle.jvms_machine.specs.LongArithmetic.{long_decision};

use crate::decisions::pushes;
use frames::SeenFrame;
use jvms_file::insn::{self, LongInsn};
use jvms_machine::action::FrameDecision;
use jvms_machine::machine::BadCause;
use jvms_machine::value::Value;
use jvms_program::thrown::Thrown;

#[inline(always)]
pub(crate) fn binary(op: insn::LongBinary, frame: &SeenFrame) -> FrameDecision
    ensures decision { result
        ≡ long_decision frame.now.body (long_insn.Binary op) frame.now.activation }
    ensures room { IfDoes result (HasRoom frame.now.body frame.now.activation) }
{
    if !frame.has_depth(4, 2) {
        return FrameDecision::Stops(BadCause::Depth);
    }
    let (Value::Long(a), Value::Second, Value::Long(b), Value::Second) = frame.top_four() else {
        return FrameDecision::Stops(BadCause::Kind);
    };
    pushes(4, Value::Long(jvm_num::long_binary(op, a, b)))
}

#[inline(always)]
pub(crate) fn division(op: insn::Division, frame: &SeenFrame) -> FrameDecision
    ensures decision { result
        ≡ long_decision frame.now.body (long_insn.Division op) frame.now.activation }
    ensures room { IfDoes result (HasRoom frame.now.body frame.now.activation) }
{
    if !frame.has_depth(4, 2) {
        return FrameDecision::Stops(BadCause::Depth);
    }
    let (Value::Long(a), Value::Second, Value::Long(b), Value::Second) = frame.top_four() else {
        return FrameDecision::Stops(BadCause::Kind);
    };
    match jvm_num::long_divide(op, a, b) {
        Some(n) => pushes(4, Value::Long(n)),
        None => FrameDecision::Throws(Thrown::ArithmeticException),
    }
}

/// Decides JVMS 6.5 `lshl`, `lshr` and `lushr`. The shift distance is an int, on top of the long.
#[inline(always)]
pub(crate) fn shift(op: insn::LongShift, frame: &SeenFrame) -> FrameDecision
    ensures decision { result
        ≡ long_decision frame.now.body (long_insn.Shift op) frame.now.activation }
    ensures room { IfDoes result (HasRoom frame.now.body frame.now.activation) }
{
    if !frame.has_depth(3, 2) {
        return FrameDecision::Stops(BadCause::Depth);
    }
    let (Value::Long(n), Value::Second, Value::Int(distance)) = frame.top_three() else {
        return FrameDecision::Stops(BadCause::Kind);
    };
    pushes(3, Value::Long(jvm_num::long_shift(op, n, distance)))
}

#[inline(always)]
pub(crate) fn negate(frame: &SeenFrame) -> FrameDecision
    ensures decision { result ≡ long_decision frame.now.body long_insn.Negate frame.now.activation }
    ensures room { IfDoes result (HasRoom frame.now.body frame.now.activation) }
{
    if !frame.has_depth(2, 2) {
        return FrameDecision::Stops(BadCause::Depth);
    }
    match frame.top_two() {
        (Value::Long(n), Value::Second) => pushes(2, Value::Long(jvm_num::lneg(n))),
        _ => FrameDecision::Stops(BadCause::Kind),
    }
}

#[inline(always)]
pub(crate) fn from_int(frame: &SeenFrame) -> FrameDecision
    ensures decision { result
        ≡ long_decision frame.now.body long_insn.FromInt frame.now.activation }
    ensures room { IfDoes result (HasRoom frame.now.body frame.now.activation) }
{
    if !frame.has_depth(1, 2) {
        return FrameDecision::Stops(BadCause::Depth);
    }
    match frame.top() {
        Value::Int(n) => pushes(1, Value::Long(jvm_num::i2l(n))),
        _ => FrameDecision::Stops(BadCause::Kind),
    }
}

#[inline(always)]
pub(crate) fn to_int(frame: &SeenFrame) -> FrameDecision
    ensures decision { result ≡ long_decision frame.now.body long_insn.ToInt frame.now.activation }
    ensures room { IfDoes result (HasRoom frame.now.body frame.now.activation) }
{
    if !frame.has_depth(2, 1) {
        return FrameDecision::Stops(BadCause::Depth);
    }
    match frame.top_two() {
        (Value::Long(n), Value::Second) => pushes(2, Value::Int(jvm_num::l2i(n))),
        _ => FrameDecision::Stops(BadCause::Kind),
    }
}

#[inline(always)]
pub(crate) fn compare(frame: &SeenFrame) -> FrameDecision
    ensures decision { result
        ≡ long_decision frame.now.body long_insn.Compare frame.now.activation }
    ensures room { IfDoes result (HasRoom frame.now.body frame.now.activation) }
{
    if !frame.has_depth(4, 1) {
        return FrameDecision::Stops(BadCause::Depth);
    }
    let (Value::Long(a), Value::Second, Value::Long(b), Value::Second) = frame.top_four() else {
        return FrameDecision::Stops(BadCause::Kind);
    };
    pushes(4, Value::Int(jvm_num::lcmp(a, b)))
}

#[inline(never)]
pub(crate) fn long(what: LongInsn, frame: &SeenFrame) -> FrameDecision
    ensures decision { result ≡ long_decision frame.now.body what frame.now.activation }
    ensures room { IfDoes result (HasRoom frame.now.body frame.now.activation) }
{
    match what {
        LongInsn::Binary(op) => binary(op, frame),
        LongInsn::Division(op) => division(op, frame),
        LongInsn::Shift(op) => shift(op, frame),
        LongInsn::Negate => negate(frame),
        LongInsn::FromInt => from_int(frame),
        LongInsn::ToInt => to_int(frame),
        LongInsn::Compare => compare(frame),
    }
}
