//! A frame as instructions read it.

ghost use Rattle.std.specs.Prelude.{◌≡◌, ◌+◌, ◌-◌, ◌<◌, ◌≤◌, ◌^◌, ◌&&◌, ◌∷◌, drop, length, nat_le, Some, slice_get};

use crate::head::Head;
use jvms_machine::value::Value;
use jvms_program::program::Body;
use std::marker::Model;

/// What is read of a frame: its head, and its values as a slice. So no access asks where a small vector stores its
/// values.
#[derive(Drop)]
pub struct SeenFrame<'f, 'p> {
    pub(crate) head: Head<'p>,
    pub(crate) values: &'f [Value],
}

impl<'f, 'p> Model for SeenFrame<'f, 'p> {
    ghost use Rattle.jvms_machine.specs.State.{MethodFrame};
    ghost use Rattle.frames.specs.Head.{frame_of, Fits};

    ghost Value = { MethodFrame };

    ghost view = { λ f. frame_of f.head f.values.now };

    ghost invariant = { λ f. Fits f.head f.values.now };
}

impl<'f, 'p> SeenFrame<'f, 'p> {
    /// Returns the code of the method.
    #[inline(always)]
    pub fn body(&self) -> &'p Body
        ensures { result.now ≡ self.now.body }
    {
        self.head.body
    }

    /// Returns the pc: the index of the next instruction in the method's list.
    #[inline(always)]
    pub fn place(&self) -> usize
        ensures { result ≡ self.now.activation.place }
    {
        self.head.place
    }

    /// Returns the number of local variables, which is `max_locals`.
    #[inline(always)]
    pub fn local_count(&self) -> usize
        ensures { result ≡ self.now.body.max_locals }
    {
        self.head.local_count
    }

    /// Returns the number of operands.
    #[inline(always)]
    fn height(&self) -> usize
        ensures exact { result ≡ length self.now.activation.operands }
        // The operands are within `max_stack`.
        ensures within { result ≤ self.now.body.max_stack }
        ensures small { result < 2 ^ 16 }
    {
        // The height is at most max_stack, which is a u16.
        let _most = self.head.body.max_stack;
        self.head.height
    }

    /// Returns the number of slots for operands.
    #[inline(always)]
    fn max_stack(&self) -> usize
        ensures { result ≡ self.now.body.max_stack }
    {
        self.head.max_stack
    }

    /// Decides whether there are `takes` operands, and whether `gives` in their place fit `max_stack`.
    #[inline(always)]
    pub fn has_depth(&self, takes: u8, gives: u8) -> bool
        ensures { result ≡ (nat_le takes (length self.now.activation.operands) && nat_le
            (length self.now.activation.operands - takes + gives) self.now.body.max_stack) }
    {
        let height = self.height();
        let takes = usize::from(takes);
        let gives = usize::from(gives);
        // The present operands already fit.
        if gives <= takes {
            return takes <= height;
        }
        takes <= height && height - takes + gives <= self.max_stack()
    }

    /// Returns local variable `n`.
    #[inline(always)]
    #[tactic(auto, using(crate::proofs::Halves::front_at))]
    pub fn local(&self, n: u16) -> Value
        requires { n < self.now.body.max_locals }
        ensures { slice_get self.now.activation.locals n ≡ Some result }
    {
        self.values[usize::from(n)]
    }

    /// Returns local variable `n + 1`.
    #[inline(always)]
    #[tactic(auto, using(crate::proofs::Halves::front_at))]
    pub fn local_after(&self, n: u16) -> Value
        requires { n + 1 < self.now.body.max_locals }
        ensures { slice_get self.now.activation.locals (n + 1) ≡ Some result }
    {
        self.values[usize::from(n) + 1]
    }

    /// Returns the operand at a depth, where the topmost has depth 0.
    #[inline(always)]
    #[tactic(auto, using(crate::proofs::Halves::back_at))]
    fn operand(&self, depth: usize) -> Value
        requires { depth < length self.now.activation.operands }
        ensures { slice_get self.now.activation.operands depth ≡ Some result }
    {
        self.values[self.head.local_count + self.head.height - 1 - depth]
    }

    /// Returns the topmost operand.
    #[inline(always)]
    #[tactic(auto, using(crate::proofs::Tops::one_on_top))]
    pub fn top(&self) -> Value
        requires { 1 ≤ length self.now.activation.operands }
        ensures { self.now.activation.operands ≡ result ∷ drop 1 self.now.activation.operands }
    {
        self.operand(0)
    }

    /// Returns the two topmost operands, the topmost last.
    #[inline(always)]
    #[tactic(auto, using(crate::proofs::Tops::two_on_top))]
    pub fn top_two(&self) -> (Value, Value)
        requires { 2 ≤ length self.now.activation.operands }
        ensures { self.now.activation.operands
            ≡ result.1 ∷ result.0 ∷ drop 2 self.now.activation.operands }
    {
        (self.operand(1), self.operand(0))
    }

    /// Returns the three topmost operands, the topmost last.
    #[inline(always)]
    #[tactic(auto, using(crate::proofs::Tops::three_on_top))]
    pub fn top_three(&self) -> (Value, Value, Value)
        requires { 3 ≤ length self.now.activation.operands }
        ensures { self.now.activation.operands
            ≡ result.2 ∷ result.1 ∷ result.0 ∷ drop 3 self.now.activation.operands }
    {
        (self.operand(2), self.operand(1), self.operand(0))
    }

    /// Returns the four topmost operands, the topmost last.
    #[inline(always)]
    #[tactic(auto, using(crate::proofs::Tops::four_on_top))]
    pub fn top_four(&self) -> (Value, Value, Value, Value)
        requires { 4 ≤ length self.now.activation.operands }
        ensures { self.now.activation.operands
            ≡ result.3 ∷ result.2 ∷ result.1 ∷ result.0 ∷ drop 4 self.now.activation.operands }
    {
        (
            self.operand(3),
            self.operand(2),
            self.operand(1),
            self.operand(0),
        )
    }
}
