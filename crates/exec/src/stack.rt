//! The instructions that move operands of any kind (JVMS 6.5 pop to swap).

ghost use Rattle.std.specs.Prelude.{◌≡◌, ◌≤◌, ◌+◌, ◌-◌, length, Some};
ghost use Rattle.jvms_file.specs.declared.insn.StackForm.TheVariants as form;
ghost use Rattle.jvms_machine.specs.Activations.{form_takes, form_gives, rearranged_operands, HasRoom, IfDoes};
ghost use Rattle.jvms_machine.specs.Stack.{stack_decision, is_second, is_set, are_set, parts_a_long};
ghost use Rattle.frames.specs.Frame.{with_operands};
ghost use Rattle.frames.specs.Open.{open_frame, IsOpen};

use frames::{Frame, Head, OpenWork, SeenFrame};
use jvms_file::insn::StackForm;
use jvms_machine::action::{FrameAction, FrameDecision};
use jvms_machine::machine::BadCause;
use jvms_machine::value::Value;

#[inline]
fn takes(form: StackForm) -> u8
    ensures value { result ≡ form_takes form }
    ensures least { 1 ≤ result }
    ensures most { result ≤ 4 }
{
    match form {
        StackForm::Pop | StackForm::Dup => 1,
        StackForm::Pop2 | StackForm::DupX1 | StackForm::Dup2 | StackForm::Swap => 2,
        StackForm::DupX2 | StackForm::Dup2X1 => 3,
        StackForm::Dup2X2 => 4,
    }
}

#[inline]
fn gives(form: StackForm) -> u8
    ensures { result ≡ form_gives form }
{
    match form {
        StackForm::Pop | StackForm::Pop2 => 0,
        StackForm::Dup | StackForm::Swap => 2,
        StackForm::DupX1 => 3,
        StackForm::DupX2 | StackForm::Dup2 => 4,
        StackForm::Dup2X1 => 5,
        StackForm::Dup2X2 => 6,
    }
}

#[inline(always)]
fn is_set(value: Value) -> bool
    ensures { result ≡ is_set value }
{
    match value {
        Value::Unset => false,
        Value::Int(_)
        | Value::Long(_)
        | Value::Second
        | Value::Null
        | Value::Reference(_)
        | Value::ReturnAddress(_) => true,
    }
}

// Decides whether the topmost `count` operands, one to four, are all set.
#[inline]
fn are_set(frame: &SeenFrame, count: u8) -> bool
    requires least { 1 ≤ count }
    requires most { count ≤ 4 }
    requires there { count ≤ length frame.now.activation.operands }
    ensures { result ≡ are_set count frame.now.activation.operands }
{
    match count {
        1 => is_set(frame.top()),
        2 => {
            let (a, b) = frame.top_two();
            is_set(b) && is_set(a)
        }
        3 => {
            let (a, b, c) = frame.top_three();
            is_set(c) && is_set(b) && is_set(a)
        }
        _ => {
            let (a, b, c, d) = frame.top_four();
            is_set(d) && is_set(c) && is_set(b) && is_set(a)
        }
    }
}

/// Decides whether a value is the second slot of a long.
#[inline(always)]
fn is_second(value: Value) -> bool
    ensures { result ≡ is_second (Some value) }
{
    matches!(value, Value::Second)
}

/// Decides whether a group's border splits a long, for a form that takes two operands.
fn parts_of_two(form: StackForm, frame: &SeenFrame) -> bool
    requires there { 2 ≤ length frame.now.activation.operands }
    requires few { form_takes form ≡ 2 }
    ensures { result ≡ parts_a_long form frame.now.activation.operands }
{
    let (a, b) = frame.top_two();
    match form {
        StackForm::Pop2 | StackForm::Dup2 => is_second(a),
        _ => is_second(b) || is_second(a),
    }
}

/// Decides whether a group's border splits a long from its second slot.
#[inline(never)]
fn parts_a_long(form: StackForm, frame: &SeenFrame) -> bool
    requires { form_takes form ≤ length frame.now.activation.operands }
    ensures { result ≡ parts_a_long form frame.now.activation.operands }
{
    match form {
        StackForm::Pop | StackForm::Dup => is_second(frame.top()),
        StackForm::Pop2 | StackForm::Dup2 | StackForm::DupX1 | StackForm::Swap => {
            parts_of_two(form, frame)
        }
        StackForm::DupX2 => {
            let (a, _, c) = frame.top_three();
            is_second(c) || is_second(a)
        }
        StackForm::Dup2X1 => {
            let (a, b, _) = frame.top_three();
            is_second(b) || is_second(a)
        }
        StackForm::Dup2X2 => {
            let (a, _, c, _) = frame.top_four();
            is_second(c) || is_second(a)
        }
    }
}

/// Decides JVMS 6.5 `pop` to `swap`. It tests the depth, then that each operand is set, then that no long is split.
#[inline(never)]
pub(crate) fn stack(form: StackForm, frame: &SeenFrame) -> FrameDecision
    ensures decision { result ≡ stack_decision frame.now.body form frame.now.activation }
    ensures room { IfDoes result (HasRoom frame.now.body frame.now.activation) }
{
    if !frame.has_depth(takes(form), gives(form)) {
        return FrameDecision::Stops(BadCause::Depth);
    }
    if !are_set(frame, takes(form)) || parts_a_long(form, frame) {
        return FrameDecision::Stops(BadCause::Kind);
    }
    FrameDecision::Does(FrameAction::Rearrange(form))
}

/// Decides JVMS 6.5 `dup`.
#[inline(always)]
pub(crate) fn duplicates(frame: &SeenFrame) -> FrameDecision
    ensures decision { result ≡ stack_decision frame.now.body form.Dup frame.now.activation }
    ensures room { IfDoes result (HasRoom frame.now.body frame.now.activation) }
{
    if !frame.has_depth(1, 2) {
        return FrameDecision::Stops(BadCause::Depth);
    }
    let top = frame.top();
    if is_set(top) && !is_second(top) {
        FrameDecision::Does(FrameAction::Rearrange(StackForm::Dup))
    } else {
        FrameDecision::Stops(BadCause::Kind)
    }
}

/// Rearranges the operands of an open frame by a form. It is inlined where the form is known, so that the frame stays
/// in registers.
#[inline(always)]
pub(crate) fn rearrange(form: StackForm, head: &mut Head, values: &mut [Value])
    requires fits { IsOpen head.old values.old }
    requires there { form_takes form ≤ length (open_frame head.old values.old).activation.operands }
    requires room { length (open_frame head.old values.old).activation.operands
        - form_takes form + form_gives form ≤ (open_frame head.old values.old).body.max_stack }
    ensures fits { IsOpen head.new values.new }
    ensures frame { open_frame head.new values.new ≡ with_operands (open_frame head.old values.old)
        (rearranged_operands form (open_frame head.old values.old).activation.operands) }
{
    match form {
        StackForm::Pop => head.drop_operands(values, 1),
        StackForm::Pop2 => head.drop_operands(values, 2),
        StackForm::Dup => dup(head, values),
        StackForm::DupX1 => dup_x1(head, values),
        StackForm::DupX2 => dup_x2(head, values),
        StackForm::Dup2 => dup2(head, values),
        StackForm::Dup2X1 => dup2_x1(head, values),
        StackForm::Dup2X2 => dup2_x2(head, values),
        StackForm::Swap => swap(head, values),
    }
}

/// The rearrangement of a form, as work on a frame.
#[derive(Drop)]
struct Rearrangement {
    form: StackForm,
}

impl OpenWork<(), ()> for Rearrangement {
    ghost use Rattle.std.specs.Prelude.{◌≡◌, ◌≤◌, ◌+◌, ◌-◌, length};
    ghost use Rattle.jvms_machine.specs.Activations.{form_takes, form_gives, rearranged_operands};
    ghost use Rattle.frames.specs.Frame.{with_operands};

    type Output = ();

    ghost can = { λ w f. (form_takes w.form ≤ length f.activation.operands)
        × (length f.activation.operands - form_takes w.form + form_gives w.form
        ≤ f.body.max_stack) };

    ghost does = { λ w f _ _ _ g _ _. g
        ≡ with_operands f (rearranged_operands w.form f.activation.operands) };

    #[inline(always)]
    fn run(self, head: &mut Head<'_>, values: &mut [Value], _first: &mut (), _second: &mut ()) {
        rearrange(self.form, head, values);
    }
}

/// Rearranges the operands of a frame by a form. It isn't inlined, so that the turns of the frequent instructions stay
/// short enough to be inlined.
#[inline(never)]
pub(crate) fn rearrange_frame(form: StackForm, frame: &mut Frame)
    requires there { form_takes form ≤ length frame.old.activation.operands }
    requires room { length frame.old.activation.operands - form_takes form + form_gives form
        ≤ frame.old.body.max_stack }
    ensures { frame.new
        ≡ with_operands frame.old (rearranged_operands form frame.old.activation.operands) }
{
    frame.open_for(Rearrangement { form }, &mut (), &mut ());
}

#[inline(always)]
fn dup(head: &mut Head, values: &mut [Value])
    requires fits { IsOpen head.old values.old }
    requires there { 1 ≤ length (open_frame head.old values.old).activation.operands }
    requires room { length (open_frame head.old values.old).activation.operands + 1
        ≤ (open_frame head.old values.old).body.max_stack }
    ensures fits { IsOpen head.new values.new }
    ensures frame { open_frame head.new values.new ≡ with_operands (open_frame head.old values.old)
        (rearranged_operands form.Dup (open_frame head.old values.old).activation.operands) }
{
    let a = head.seen(values).top();
    head.push(values, a);
}

#[inline(always)]
fn dup_x1(head: &mut Head, values: &mut [Value])
    requires fits { IsOpen head.old values.old }
    requires there { 2 ≤ length (open_frame head.old values.old).activation.operands }
    requires room { length (open_frame head.old values.old).activation.operands + 1
        ≤ (open_frame head.old values.old).body.max_stack }
    ensures fits { IsOpen head.new values.new }
    ensures frame { open_frame head.new values.new ≡ with_operands (open_frame head.old values.old)
        (rearranged_operands form.DupX1 (open_frame head.old values.old).activation.operands) }
{
    let (a, b) = head.seen(values).top_two();
    head.drop_operands(values, 2);
    head.push(values, b);
    head.push(values, a);
    head.push(values, b);
}

#[inline(always)]
fn dup_x2(head: &mut Head, values: &mut [Value])
    requires fits { IsOpen head.old values.old }
    requires there { 3 ≤ length (open_frame head.old values.old).activation.operands }
    requires room { length (open_frame head.old values.old).activation.operands + 1
        ≤ (open_frame head.old values.old).body.max_stack }
    ensures fits { IsOpen head.new values.new }
    ensures frame { open_frame head.new values.new ≡ with_operands (open_frame head.old values.old)
        (rearranged_operands form.DupX2 (open_frame head.old values.old).activation.operands) }
{
    let (a, b, c) = head.seen(values).top_three();
    head.drop_operands(values, 3);
    head.push(values, c);
    head.push(values, a);
    head.push(values, b);
    head.push(values, c);
}

#[inline(always)]
fn dup2(head: &mut Head, values: &mut [Value])
    requires fits { IsOpen head.old values.old }
    requires there { 2 ≤ length (open_frame head.old values.old).activation.operands }
    requires room { length (open_frame head.old values.old).activation.operands + 2
        ≤ (open_frame head.old values.old).body.max_stack }
    ensures fits { IsOpen head.new values.new }
    ensures frame { open_frame head.new values.new ≡ with_operands (open_frame head.old values.old)
        (rearranged_operands form.Dup2 (open_frame head.old values.old).activation.operands) }
{
    let (a, b) = head.seen(values).top_two();
    head.push(values, a);
    head.push(values, b);
}

#[inline(always)]
fn dup2_x1(head: &mut Head, values: &mut [Value])
    requires fits { IsOpen head.old values.old }
    requires there { 3 ≤ length (open_frame head.old values.old).activation.operands }
    requires room { length (open_frame head.old values.old).activation.operands + 2
        ≤ (open_frame head.old values.old).body.max_stack }
    ensures fits { IsOpen head.new values.new }
    ensures frame { open_frame head.new values.new ≡ with_operands (open_frame head.old values.old)
        (rearranged_operands form.Dup2X1 (open_frame head.old values.old).activation.operands) }
{
    let (a, b, c) = head.seen(values).top_three();
    head.drop_operands(values, 3);
    head.push(values, b);
    head.push(values, c);
    head.push(values, a);
    head.push(values, b);
    head.push(values, c);
}

#[inline(always)]
fn dup2_x2(head: &mut Head, values: &mut [Value])
    requires fits { IsOpen head.old values.old }
    requires there { 4 ≤ length (open_frame head.old values.old).activation.operands }
    requires room { length (open_frame head.old values.old).activation.operands + 2
        ≤ (open_frame head.old values.old).body.max_stack }
    ensures fits { IsOpen head.new values.new }
    ensures frame { open_frame head.new values.new ≡ with_operands (open_frame head.old values.old)
        (rearranged_operands form.Dup2X2 (open_frame head.old values.old).activation.operands) }
{
    let (a, b, c, d) = head.seen(values).top_four();
    head.drop_operands(values, 4);
    head.push(values, c);
    head.push(values, d);
    head.push(values, a);
    head.push(values, b);
    head.push(values, c);
    head.push(values, d);
}

#[inline(always)]
fn swap(head: &mut Head, values: &mut [Value])
    requires fits { IsOpen head.old values.old }
    requires there { 2 ≤ length (open_frame head.old values.old).activation.operands }
    requires room { length (open_frame head.old values.old).activation.operands
        ≤ (open_frame head.old values.old).body.max_stack }
    ensures fits { IsOpen head.new values.new }
    ensures frame { open_frame head.new values.new ≡ with_operands (open_frame head.old values.old)
        (rearranged_operands form.Swap (open_frame head.old values.old).activation.operands) }
{
    let (a, b) = head.seen(values).top_two();
    head.drop_operands(values, 2);
    head.push(values, b);
    head.push(values, a);
}
