//! Arithmetic (JVMS 6.5 iadd to ixor, idiv, irem, ineg, i2b, i2c, i2s).

ghost use Rattle.std.specs.Prelude.{◌≡◌};
ghost use Rattle.jvms_file.specs.declared.insn.IntInsn.TheVariants as int_insn;
ghost use Rattle.jvms_machine.specs.Activations.{HasRoom, IfDoes};
ghost use Rattle.jvms_machine.specs.Arithmetic.{int_decision, conversion_result};

use crate::decisions::pushes;
use frames::SeenFrame;
use jvms_file::insn;
use jvms_machine::action::FrameDecision;
use jvms_machine::machine::BadCause;
use jvms_machine::value::Value;
use jvms_program::thrown::Thrown;

#[inline(always)]
pub(crate) fn binary(op: insn::Binary, frame: &SeenFrame) -> FrameDecision
    ensures decision { result
        ≡ int_decision frame.now.body (int_insn.Binary op) frame.now.activation }
    ensures room { IfDoes result (HasRoom frame.now.body frame.now.activation) }
{
    if !frame.has_depth(2, 1) {
        return FrameDecision::Stops(BadCause::Depth);
    }
    let (Value::Int(a), Value::Int(b)) = frame.top_two() else {
        return FrameDecision::Stops(BadCause::Kind);
    };
    pushes(2, Value::Int(jvm_num::binary(op, a, b)))
}

#[inline(always)]
fn division(op: insn::Division, frame: &SeenFrame) -> FrameDecision
    ensures decision { result
        ≡ int_decision frame.now.body (int_insn.Division op) frame.now.activation }
    ensures room { IfDoes result (HasRoom frame.now.body frame.now.activation) }
{
    if !frame.has_depth(2, 1) {
        return FrameDecision::Stops(BadCause::Depth);
    }
    let (Value::Int(a), Value::Int(b)) = frame.top_two() else {
        return FrameDecision::Stops(BadCause::Kind);
    };
    match jvm_num::divide(op, a, b) {
        Some(n) => pushes(2, Value::Int(n)),
        None => FrameDecision::Throws(Thrown::ArithmeticException),
    }
}

#[inline(always)]
fn negate(frame: &SeenFrame) -> FrameDecision
    ensures decision { result ≡ int_decision frame.now.body int_insn.Negate frame.now.activation }
    ensures room { IfDoes result (HasRoom frame.now.body frame.now.activation) }
{
    if !frame.has_depth(1, 1) {
        return FrameDecision::Stops(BadCause::Depth);
    }
    match frame.top() {
        Value::Int(n) => pushes(1, Value::Int(jvm_num::neg(n))),
        _ => FrameDecision::Stops(BadCause::Kind),
    }
}

#[inline(always)]
fn convert(to: insn::Conversion, n: i32) -> i32
    ensures { result ≡ conversion_result to n }
{
    match to {
        insn::Conversion::ToByte => jvm_num::narrow(insn::Narrow::Byte, n),
        insn::Conversion::ToChar => jvm_num::narrow(insn::Narrow::Char, n),
        insn::Conversion::ToShort => jvm_num::narrow(insn::Narrow::Short, n),
    }
}

#[inline(always)]
fn conversion(to: insn::Conversion, frame: &SeenFrame) -> FrameDecision
    ensures decision { result
        ≡ int_decision frame.now.body (int_insn.Conversion to) frame.now.activation }
    ensures room { IfDoes result (HasRoom frame.now.body frame.now.activation) }
{
    if !frame.has_depth(1, 1) {
        return FrameDecision::Stops(BadCause::Depth);
    }
    match frame.top() {
        Value::Int(n) => pushes(1, Value::Int(convert(to, n))),
        _ => FrameDecision::Stops(BadCause::Kind),
    }
}

#[inline(never)]
pub(crate) fn int(what: insn::IntInsn, frame: &SeenFrame) -> FrameDecision
    ensures decision { result ≡ int_decision frame.now.body what frame.now.activation }
    ensures room { IfDoes result (HasRoom frame.now.body frame.now.activation) }
{
    match what {
        insn::IntInsn::Binary(op) => binary(op, frame),
        insn::IntInsn::Division(op) => division(op, frame),
        insn::IntInsn::Negate => negate(frame),
        insn::IntInsn::Conversion(to) => conversion(to, frame),
    }
}
