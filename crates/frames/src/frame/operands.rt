//! The operands of a frame (JVMS 2.6.2).

ghost use Rattle.std.specs.Prelude.{◌≡◌, ◌+◌, ◌-◌, ◌<◌, ◌≤◌, ◌∷◌, drop, take, reverse, length, Some, slice_get};
ghost use Rattle.jvms_machine.specs.declared.value.Value.TheVariants as value;
ghost use Rattle.jvms_machine.specs.Places.{put_on, value_size};

use super::{Frame, put};
use jvms_machine::value::Value;

impl<'p> Frame<'p> {
    ghost use Rattle.frames.specs.Frame.{with_operands};

    /// Returns the number of operands.
    #[inline(always)]
    pub fn height(&self) -> u16
        ensures exact { result ≡ length self.now.activation.operands }
        // The operands are within `max_stack`.
        ensures within { result ≤ self.now.body.max_stack }
    {
        // The height is at most max_stack, which is a u16.
        let _most = self.head.body.max_stack;
        self.head.height as u16
    }

    /// Pushes an operand.
    #[inline(always)]
    #[tactic(auto, using(crate::proofs::Halves::front_kept, crate::proofs::Halves::pushed))]
    pub fn push(&mut self, value: Value)
        requires { length self.old.activation.operands < self.old.body.max_stack }
        ensures { self.new ≡ with_operands self.old (value ∷ self.old.activation.operands) }
    {
        put(
            &mut self.values,
            self.head.local_count + self.head.height,
            value,
        );
        self.head.height += 1;
    }

    /// Removes the topmost operand.
    #[inline(always)]
    #[tactic(auto, using(crate::proofs::Halves::cut))]
    fn drop_operand(&mut self)
        requires { 1 ≤ length self.old.activation.operands }
        ensures { self.new ≡ with_operands self.old (drop 1 self.old.activation.operands) }
    {
        self.head.height -= 1;
    }

    /// Removes the topmost `count` operands.
    #[tactic(auto, using(crate::proofs::Halves::cut))]
    fn cut_operands(&mut self, count: usize)
        requires { count ≤ length self.old.activation.operands }
        ensures { self.new ≡ with_operands self.old (drop count self.old.activation.operands) }
    {
        self.head.height -= count;
    }

    /// Removes the topmost `count` operands. Most instructions take none, one or two, which are the fast path.
    #[inline(always)]
    #[tactic(auto, using(crate::proofs::Tops::two_dropped))]
    pub fn drop_operands(&mut self, count: usize)
        requires { count ≤ length self.old.activation.operands }
        ensures { self.new ≡ with_operands self.old (drop count self.old.activation.operands) }
    {
        match count {
            0 => {}
            1 => self.drop_operand(),
            2 => {
                self.drop_operand();
                self.drop_operand();
            }
            _ => self.cut_operands(count),
        }
    }

    /// Replaces the topmost operand.
    #[inline(always)]
    #[tactic(auto, using(crate::proofs::Halves::front_kept, crate::proofs::Halves::top_replaced))]
    fn set_top(&mut self, value: Value)
        requires { 1 ≤ length self.old.activation.operands }
        ensures { self.new ≡ with_operands self.old (value ∷ drop 1 self.old.activation.operands) }
    {
        put(
            &mut self.values,
            self.head.local_count + self.head.height - 1,
            value,
        );
    }

    /// Replaces the topmost `takes` operands by a value of one slot.
    #[inline(always)]
    #[tactic(auto, using(crate::proofs::Tops::two_dropped))]
    fn replace_by_one(&mut self, takes: usize, value: Value)
        requires there { takes ≤ length self.old.activation.operands }
        requires room { length self.old.activation.operands - takes < self.old.body.max_stack }
        ensures { self.new
            ≡ with_operands self.old (value ∷ drop takes self.old.activation.operands) }
    {
        match takes {
            0 => self.push(value),
            1 => self.set_top(value),
            2 => {
                self.drop_operand();
                self.set_top(value);
            }
            _ => {
                self.cut_operands(takes);
                self.push(value);
            }
        }
    }

    /// Replaces the topmost `takes` operands by a long.
    #[inline(always)]
    fn replace_by_long(&mut self, takes: usize, long: i64)
        requires there { takes ≤ length self.old.activation.operands }
        requires room { length self.old.activation.operands - takes + 2 ≤ self.old.body.max_stack }
        ensures { self.new ≡ with_operands self.old
            (put_on (value.Long long) (drop takes self.old.activation.operands)) }
    {
        self.drop_operands(takes);
        self.push(Value::Long(long));
        self.push(Value::Second);
    }

    /// Replaces the topmost `takes` operands by a value. A long takes two slots.
    #[inline(always)]
    pub fn replace(&mut self, takes: usize, value: Value)
        requires there { takes ≤ length self.old.activation.operands }
        requires room { length self.old.activation.operands - takes + value_size value
            ≤ self.old.body.max_stack }
        ensures { self.new
            ≡ with_operands self.old (put_on value (drop takes self.old.activation.operands)) }
    {
        match value {
            Value::Long(long) => self.replace_by_long(takes, long),
            Value::Int(_)
            | Value::Second
            | Value::Null
            | Value::Reference(_)
            | Value::ReturnAddress(_)
            | Value::Unset => self.replace_by_one(takes, value),
        }
    }

    /// Returns the operand at a depth, where the topmost has depth 0.
    #[inline(always)]
    #[tactic(auto, using(crate::proofs::Halves::back_at))]
    pub fn operand(&self, depth: usize) -> Value
        requires { depth < length self.now.activation.operands }
        ensures { slice_get self.now.activation.operands depth ≡ Some result }
    {
        self.values.as_slice()[self.head.local_count + self.head.height - 1 - depth]
    }

    /// Returns the two operands below the top `count`, the lower one first.
    #[inline(always)]
    #[tactic(auto, using(crate::proofs::Tops::two_after))]
    pub fn two_below(&self, count: usize) -> (Value, Value)
        requires { count + 2 ≤ length self.now.activation.operands }
        ensures { drop count self.now.activation.operands
            ≡ result.1 ∷ result.0 ∷ drop (count + 2) self.now.activation.operands }
    {
        // The height is a 16-bit number.
        let height = usize::from(self.height());
        prove!(count < height);
        (self.operand(count + 1), self.operand(count))
    }

    /// Returns the topmost `count` operands in the order in which a call takes them, the topmost last.
    #[inline(always)]
    #[tactic(auto, using(crate::proofs::Halves::topmost))]
    pub fn arguments(&self, count: usize) -> &[Value]
        requires { count ≤ length self.now.activation.operands }
        ensures { result.now ≡ reverse (take count self.now.activation.operands) }
    {
        let end = self.head.local_count + self.head.height;
        &self.values.as_slice()[end - count..end]
    }

    /// Returns the topmost operand.
    #[inline(always)]
    #[tactic(auto, using(crate::proofs::Tops::one_on_top))]
    pub fn top(&self) -> Value
        requires { 1 ≤ length self.now.activation.operands }
        ensures { self.now.activation.operands ≡ result ∷ drop 1 self.now.activation.operands }
    {
        self.operand(0)
    }

    /// Returns the two topmost operands, the topmost last.
    #[inline(always)]
    #[tactic(auto, using(crate::proofs::Tops::two_on_top))]
    pub fn top_two(&self) -> (Value, Value)
        requires { 2 ≤ length self.now.activation.operands }
        ensures { self.now.activation.operands
            ≡ result.1 ∷ result.0 ∷ drop 2 self.now.activation.operands }
    {
        (self.operand(1), self.operand(0))
    }

    /// Returns the three topmost operands, the topmost last.
    #[inline(always)]
    #[tactic(auto, using(crate::proofs::Tops::three_on_top))]
    pub fn top_three(&self) -> (Value, Value, Value)
        requires { 3 ≤ length self.now.activation.operands }
        ensures { self.now.activation.operands
            ≡ result.2 ∷ result.1 ∷ result.0 ∷ drop 3 self.now.activation.operands }
    {
        (self.operand(2), self.operand(1), self.operand(0))
    }

    /// Returns the four topmost operands, the topmost last.
    #[inline(always)]
    #[tactic(auto, using(crate::proofs::Tops::four_on_top))]
    pub fn top_four(&self) -> (Value, Value, Value, Value)
        requires { 4 ≤ length self.now.activation.operands }
        ensures { self.now.activation.operands
            ≡ result.3 ∷ result.2 ∷ result.1 ∷ result.0 ∷ drop 4 self.now.activation.operands }
    {
        (
            self.operand(3),
            self.operand(2),
            self.operand(1),
            self.operand(0),
        )
    }
}
