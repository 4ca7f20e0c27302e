//! Jumps (JVMS 6.5 if<cond>, if_icmp<cond>, if_acmp<cond>, ifnull, ifnonnull, goto, jsr).

ghost use Rattle.std.specs.Prelude.{◌≡◌, ◌≤◌, ◌<◌, ◌^◌, ◌+◌, length};
ghost use Rattle.jvms_file.specs.declared.insn.Branch.TheVariants as branches;
ghost use Rattle.jvms_machine.specs.Activations.{HasRoom, IfDoes, reference_in};
ghost use Rattle.jvms_machine.specs.Branches.{branch_decision, compares, is_same_reference, is_null, jumps_if};

use crate::decisions::jumps;
use frames::SeenFrame;
use jvms_file::insn::{Branch, Comparison};
use jvms_machine::action::{FrameAction, FrameDecision};
use jvms_machine::machine::BadCause;
use jvms_machine::value::Value;

#[inline(always)]
fn compares(how: Comparison, m: i32, n: i32) -> bool
    ensures { result ≡ compares how m n }
{
    match how {
        Comparison::Equal => m == n,
        Comparison::NotEqual => m != n,
        Comparison::Less => m < n,
        Comparison::GreaterOrEqual => m >= n,
        Comparison::Greater => m > n,
        Comparison::LessOrEqual => m <= n,
    }
}

// Returns the reference in a value: `Some(None)` for null, and `None` if the value is no reference.
#[inline(always)]
fn reference_of(value: Value) -> Option<Option<u32>>
    ensures { result ≡ reference_in value }
{
    match value {
        Value::Reference(r) => Some(Some(r)),
        Value::Null => Some(None),
        Value::Int(_) | Value::Long(_) | Value::Second | Value::ReturnAddress(_) | Value::Unset =>
            None,
    }
}

#[inline(always)]
fn is_same(r: Option<u32>, q: Option<u32>) -> bool
    ensures { result ≡ is_same_reference r q }
{
    match (r, q) {
        (None, None) => true,
        (Some(r), Some(q)) => r == q,
        (Some(_), None) | (None, Some(_)) => false,
    }
}

#[inline(always)]
fn is_null(r: Option<u32>) -> bool
    ensures { result ≡ is_null r }
{
    r.is_none()
}

// Returns a jump to the target if the test holds, else to the next instruction.
#[inline(always)]
fn jump_if(holds: bool, takes: u16, frame: &SeenFrame, target: u32) -> FrameDecision
    requires place { frame.now.activation.place + 1 < 2 ^ 64 }
    requires there { takes ≤ length frame.now.activation.operands }
    ensures decision { result ≡ jumps_if holds takes frame.now.activation target }
    ensures room { IfDoes result (HasRoom frame.now.body frame.now.activation) }
{
    let next = frame.place() + 1;
    jumps(takes, if holds { target as usize } else { next })
}

#[inline(always)]
pub(crate) fn if_zero(how: Comparison, target: u32, frame: &SeenFrame) -> FrameDecision
    requires { frame.now.activation.place + 1 < 2 ^ 64 }
    ensures decision { result
        ≡ branch_decision frame.now.body (branches.IfZero how) target frame.now.activation }
    ensures room { IfDoes result (HasRoom frame.now.body frame.now.activation) }
{
    if !frame.has_depth(1, 0) {
        return FrameDecision::Stops(BadCause::Depth);
    }
    match frame.top() {
        Value::Int(n) => jump_if(compares(how, n, 0), 1, frame, target),
        _ => FrameDecision::Stops(BadCause::Kind),
    }
}

#[inline(always)]
pub(crate) fn if_ints(how: Comparison, target: u32, frame: &SeenFrame) -> FrameDecision
    requires { frame.now.activation.place + 1 < 2 ^ 64 }
    ensures decision { result
        ≡ branch_decision frame.now.body (branches.IfInts how) target frame.now.activation }
    ensures room { IfDoes result (HasRoom frame.now.body frame.now.activation) }
{
    if !frame.has_depth(2, 0) {
        return FrameDecision::Stops(BadCause::Depth);
    }
    match frame.top_two() {
        (Value::Int(m), Value::Int(n)) => jump_if(compares(how, m, n), 2, frame, target),
        _ => FrameDecision::Stops(BadCause::Kind),
    }
}

#[inline(always)]
fn if_same(target: u32, frame: &SeenFrame) -> FrameDecision
    requires { frame.now.activation.place + 1 < 2 ^ 64 }
    ensures decision { result
        ≡ branch_decision frame.now.body branches.IfSame target frame.now.activation }
    ensures room { IfDoes result (HasRoom frame.now.body frame.now.activation) }
{
    if !frame.has_depth(2, 0) {
        return FrameDecision::Stops(BadCause::Depth);
    }
    let (a, b) = frame.top_two();
    match (reference_of(a), reference_of(b)) {
        (Some(r), Some(q)) => jump_if(is_same(r, q), 2, frame, target),
        _ => FrameDecision::Stops(BadCause::Kind),
    }
}

#[inline(always)]
fn if_different(target: u32, frame: &SeenFrame) -> FrameDecision
    requires { frame.now.activation.place + 1 < 2 ^ 64 }
    ensures decision { result
        ≡ branch_decision frame.now.body branches.IfDifferent target frame.now.activation }
    ensures room { IfDoes result (HasRoom frame.now.body frame.now.activation) }
{
    if !frame.has_depth(2, 0) {
        return FrameDecision::Stops(BadCause::Depth);
    }
    let (a, b) = frame.top_two();
    match (reference_of(a), reference_of(b)) {
        (Some(r), Some(q)) => jump_if(!is_same(r, q), 2, frame, target),
        _ => FrameDecision::Stops(BadCause::Kind),
    }
}

#[inline(always)]
pub(crate) fn if_null(target: u32, frame: &SeenFrame) -> FrameDecision
    requires { frame.now.activation.place + 1 < 2 ^ 64 }
    ensures decision { result
        ≡ branch_decision frame.now.body branches.IfNull target frame.now.activation }
    ensures room { IfDoes result (HasRoom frame.now.body frame.now.activation) }
{
    if !frame.has_depth(1, 0) {
        return FrameDecision::Stops(BadCause::Depth);
    }
    match reference_of(frame.top()) {
        Some(r) => jump_if(is_null(r), 1, frame, target),
        None => FrameDecision::Stops(BadCause::Kind),
    }
}

#[inline(always)]
pub(crate) fn if_non_null(target: u32, frame: &SeenFrame) -> FrameDecision
    requires { frame.now.activation.place + 1 < 2 ^ 64 }
    ensures decision { result
        ≡ branch_decision frame.now.body branches.IfNonNull target frame.now.activation }
    ensures room { IfDoes result (HasRoom frame.now.body frame.now.activation) }
{
    if !frame.has_depth(1, 0) {
        return FrameDecision::Stops(BadCause::Depth);
    }
    match reference_of(frame.top()) {
        Some(r) => jump_if(!is_null(r), 1, frame, target),
        None => FrameDecision::Stops(BadCause::Kind),
    }
}

// Decides JVMS 6.5 `jsr`.
#[inline(always)]
fn subroutine(target: u32, frame: &SeenFrame) -> FrameDecision
    ensures decision { result
        ≡ branch_decision frame.now.body branches.Subroutine target frame.now.activation }
    ensures room { IfDoes result (HasRoom frame.now.body frame.now.activation) }
{
    if !frame.has_depth(0, 1) {
        return FrameDecision::Stops(BadCause::Depth);
    }
    FrameDecision::Does(FrameAction::Subroutine {
        target: target as usize,
    })
}

#[inline(never)]
pub(crate) fn branch(how: Branch, target: u32, frame: &SeenFrame) -> FrameDecision
    requires { frame.now.activation.place + 1 < 2 ^ 64 }
    ensures decision { result ≡ branch_decision frame.now.body how target frame.now.activation }
    ensures room { IfDoes result (HasRoom frame.now.body frame.now.activation) }
{
    match how {
        Branch::IfZero(comparison) => if_zero(comparison, target, frame),
        Branch::IfInts(comparison) => if_ints(comparison, target, frame),
        Branch::IfSame => if_same(target, frame),
        Branch::IfDifferent => if_different(target, frame),
        Branch::IfNull => if_null(target, frame),
        Branch::IfNonNull => if_non_null(target, frame),
        Branch::Goto => jumps(0, target as usize),
        Branch::Subroutine => subroutine(target, frame),
    }
}
