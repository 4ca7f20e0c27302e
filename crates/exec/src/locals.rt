//! Local variables (JVMS 6.5 iload, lload, aload, istore, lstore, astore, ret, iinc).

ghost use Rattle.std.specs.Prelude.{◌≡◌};
ghost use Rattle.jvms_file.specs.declared.insn.Kind.TheVariants as kinds;
ghost use Rattle.jvms_file.specs.declared.insn.LocalUse.TheVariants as local_use;
ghost use Rattle.jvms_machine.specs.declared.action.FrameAction.TheVariants as action;
ghost use Rattle.jvms_machine.specs.declared.action.FrameDecision.TheVariants as decided;
ghost use Rattle.jvms_machine.specs.Activations.{HasRoom, IfDoes};
ghost use Rattle.jvms_machine.specs.Locals.{load_decision, store_decision, local_decision, increment_decision};

use crate::decisions::{jumps, pushes};
use frames::SeenFrame;
use jvms_file::insn::{Kind, LocalUse};
use jvms_machine::action::{FrameAction, FrameDecision};
use jvms_machine::machine::BadCause;
use jvms_machine::value::Value;

/// Decides JVMS 6.5 `iload`.
#[inline(always)]
pub(crate) fn load_int(n: u16, frame: &SeenFrame) -> FrameDecision
    ensures decision { result ≡ load_decision frame.now.body kinds.Int n frame.now.activation }
    ensures room { IfDoes result (HasRoom frame.now.body frame.now.activation) }
{
    if usize::from(n) >= frame.local_count() {
        return FrameDecision::Stops(BadCause::Local);
    }
    if !frame.has_depth(0, 1) {
        return FrameDecision::Stops(BadCause::Depth);
    }
    match frame.local(n) {
        Value::Int(m) => pushes(0, Value::Int(m)),
        _ => FrameDecision::Stops(BadCause::Kind),
    }
}

/// Decides JVMS 6.5 `aload`.
#[inline(always)]
pub(crate) fn load_reference(n: u16, frame: &SeenFrame) -> FrameDecision
    ensures decision { result
        ≡ load_decision frame.now.body kinds.Reference n frame.now.activation }
    ensures room { IfDoes result (HasRoom frame.now.body frame.now.activation) }
{
    if usize::from(n) >= frame.local_count() {
        return FrameDecision::Stops(BadCause::Local);
    }
    if !frame.has_depth(0, 1) {
        return FrameDecision::Stops(BadCause::Depth);
    }
    match frame.local(n) {
        Value::Reference(reference) => pushes(0, Value::Reference(reference)),
        Value::Null => pushes(0, Value::Null),
        _ => FrameDecision::Stops(BadCause::Kind),
    }
}

/// Decides JVMS 6.5 `lload`.
#[inline(always)]
pub(crate) fn load_long(n: u16, frame: &SeenFrame) -> FrameDecision
    ensures decision { result ≡ load_decision frame.now.body kinds.Long n frame.now.activation }
    ensures room { IfDoes result (HasRoom frame.now.body frame.now.activation) }
{
    if usize::from(n) + 1 >= frame.local_count() {
        return FrameDecision::Stops(BadCause::Local);
    }
    if !frame.has_depth(0, 2) {
        return FrameDecision::Stops(BadCause::Depth);
    }
    match (frame.local(n), frame.local_after(n)) {
        (Value::Long(long), Value::Second) => pushes(0, Value::Long(long)),
        _ => FrameDecision::Stops(BadCause::Kind),
    }
}

fn load(kind: Kind, n: u16, frame: &SeenFrame) -> FrameDecision
    ensures decision { result ≡ load_decision frame.now.body kind n frame.now.activation }
    ensures room { IfDoes result (HasRoom frame.now.body frame.now.activation) }
{
    match kind {
        Kind::Int => load_int(n, frame),
        Kind::Long => load_long(n, frame),
        Kind::Reference => load_reference(n, frame),
        Kind::Float | Kind::Double => FrameDecision::Stops(BadCause::OutOfProfile),
    }
}

/// Returns the decision to store a value in a local variable and to remove `takes` operands.
#[inline(always)]
fn stores_in(local: u16, takes: u8, value: Value) -> FrameDecision
    ensures { result ≡ decided.Does (action.Store takes local value) }
{
    FrameDecision::Does(FrameAction::Store {
        takes,
        local,
        value,
    })
}

/// Decides JVMS 6.5 `istore`.
#[inline(always)]
pub(crate) fn store_int(n: u16, frame: &SeenFrame) -> FrameDecision
    ensures decision { result ≡ store_decision frame.now.body kinds.Int n frame.now.activation }
    ensures room { IfDoes result (HasRoom frame.now.body frame.now.activation) }
{
    if usize::from(n) >= frame.local_count() {
        return FrameDecision::Stops(BadCause::Local);
    }
    if !frame.has_depth(1, 0) {
        return FrameDecision::Stops(BadCause::Depth);
    }
    match frame.top() {
        Value::Int(m) => stores_in(n, 1, Value::Int(m)),
        _ => FrameDecision::Stops(BadCause::Kind),
    }
}

/// Decides JVMS 6.5 `astore`, which takes a reference, null or a return address.
#[inline(always)]
pub(crate) fn store_reference(n: u16, frame: &SeenFrame) -> FrameDecision
    ensures decision { result
        ≡ store_decision frame.now.body kinds.Reference n frame.now.activation }
    ensures room { IfDoes result (HasRoom frame.now.body frame.now.activation) }
{
    if usize::from(n) >= frame.local_count() {
        return FrameDecision::Stops(BadCause::Local);
    }
    if !frame.has_depth(1, 0) {
        return FrameDecision::Stops(BadCause::Depth);
    }
    match frame.top() {
        Value::Reference(reference) => stores_in(n, 1, Value::Reference(reference)),
        Value::Null => stores_in(n, 1, Value::Null),
        Value::ReturnAddress(place) => stores_in(n, 1, Value::ReturnAddress(place)),
        _ => FrameDecision::Stops(BadCause::Kind),
    }
}

/// Decides JVMS 6.5 `lstore`.
#[inline(always)]
pub(crate) fn store_long(n: u16, frame: &SeenFrame) -> FrameDecision
    ensures decision { result ≡ store_decision frame.now.body kinds.Long n frame.now.activation }
    ensures room { IfDoes result (HasRoom frame.now.body frame.now.activation) }
{
    if usize::from(n) + 1 >= frame.local_count() {
        return FrameDecision::Stops(BadCause::Local);
    }
    if !frame.has_depth(2, 0) {
        return FrameDecision::Stops(BadCause::Depth);
    }
    match frame.top_two() {
        (Value::Long(long), Value::Second) => stores_in(n, 2, Value::Long(long)),
        _ => FrameDecision::Stops(BadCause::Kind),
    }
}

fn store(kind: Kind, n: u16, frame: &SeenFrame) -> FrameDecision
    ensures decision { result ≡ store_decision frame.now.body kind n frame.now.activation }
    ensures room { IfDoes result (HasRoom frame.now.body frame.now.activation) }
{
    match kind {
        Kind::Int => store_int(n, frame),
        Kind::Long => store_long(n, frame),
        Kind::Reference => store_reference(n, frame),
        Kind::Float | Kind::Double => FrameDecision::Stops(BadCause::OutOfProfile),
    }
}

// Decides JVMS 6.5 `ret`.
#[inline(always)]
fn return_to(n: u16, frame: &SeenFrame) -> FrameDecision
    ensures decision { result
        ≡ local_decision frame.now.body local_use.Return n frame.now.activation }
    ensures room { IfDoes result (HasRoom frame.now.body frame.now.activation) }
{
    if usize::from(n) >= frame.local_count() {
        return FrameDecision::Stops(BadCause::Local);
    }
    match frame.local(n) {
        Value::ReturnAddress(place) => jumps(0, place),
        _ => FrameDecision::Stops(BadCause::Kind),
    }
}

#[inline(never)]
pub(crate) fn local(how: LocalUse, n: u16, frame: &SeenFrame) -> FrameDecision
    ensures decision { result ≡ local_decision frame.now.body how n frame.now.activation }
    ensures room { IfDoes result (HasRoom frame.now.body frame.now.activation) }
{
    match how {
        LocalUse::Load(kind) => load(kind, n, frame),
        LocalUse::Store(kind) => store(kind, n, frame),
        LocalUse::Return => return_to(n, frame),
    }
}

// Decides JVMS 6.5 `iinc`.
#[inline(always)]
pub(crate) fn increment(n: u16, by: i16, frame: &SeenFrame) -> FrameDecision
    ensures decision { result ≡ increment_decision frame.now.body n by frame.now.activation }
    ensures room { IfDoes result (HasRoom frame.now.body frame.now.activation) }
{
    if usize::from(n) >= frame.local_count() {
        return FrameDecision::Stops(BadCause::Local);
    }
    let Value::Int(m) = frame.local(n) else {
        return FrameDecision::Stops(BadCause::Kind);
    };
    FrameDecision::Does(FrameAction::Store {
        takes: 0,
        local: n,
        value: Value::Int(jvm_num::add(m, i32::from(by))),
    })
}
