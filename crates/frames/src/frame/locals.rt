//! The local variables of a frame (JVMS 2.6.1).

ghost use Rattle.std.specs.Prelude.{◌≡◌, ◌+◌, ◌<◌, ◌≤◌, slice_get, slice_set, Some};
ghost use Rattle.jvms_machine.specs.declared.value.Value.TheVariants as value;
ghost use Rattle.jvms_machine.specs.Activations.{with_stored, without_long_at};
ghost use Rattle.jvms_machine.specs.Places.{value_size};

use super::{Frame, put};
use jvms_machine::value::Value;

impl<'p> Frame<'p> {
    ghost use Rattle.frames.specs.Frame.{with_locals};

    /// Returns the local variables.
    #[inline(always)]
    pub fn locals(&self) -> &[Value]
        ensures { result.now ≡ self.now.activation.locals }
    {
        &self.values.as_slice()[..self.head.local_count]
    }

    /// Returns the number of local variables, which is `max_locals`.
    #[inline(always)]
    pub fn local_count(&self) -> usize
        ensures { result ≡ self.now.body.max_locals }
    {
        self.head.local_count
    }

    /// Returns local variable `n`.
    #[inline(always)]
    #[tactic(auto, using(crate::proofs::Halves::front_at))]
    pub fn local(&self, n: u16) -> Value
        requires { n < self.now.body.max_locals }
        ensures { slice_get self.now.activation.locals n ≡ Some result }
    {
        self.values.as_slice()[usize::from(n)]
    }

    /// Returns local variable `n + 1`.
    #[inline(always)]
    #[tactic(auto, using(crate::proofs::Halves::front_at))]
    pub fn local_after(&self, n: u16) -> Value
        requires { n + 1 < self.now.body.max_locals }
        ensures { slice_get self.now.activation.locals (n + 1) ≡ Some result }
    {
        self.values.as_slice()[usize::from(n) + 1]
    }

    /// Writes local variable `n`.
    #[inline(always)]
    #[tactic(auto, using(crate::proofs::Halves::front_set, crate::proofs::Halves::back_kept))]
    fn set_local(&mut self, n: u16, value: Value)
        requires { n < self.old.body.max_locals }
        ensures { self.new ≡ with_locals self.old (slice_set self.old.activation.locals n value) }
    {
        put(&mut self.values, usize::from(n), value);
    }

    /// Unsets local variable `n + 1`, if there is one.
    #[tactic(auto, using(crate::proofs::Locals::set_beyond))]
    fn unset_after(&mut self, n: u16)
        requires { n < self.old.body.max_locals }
        ensures { self.new
            ≡ with_locals self.old (slice_set self.old.activation.locals (n + 1) value.Unset) }
    {
        // The count is a 16-bit number.
        let _count = self.head.body.max_locals;
        if usize::from(n) + 1 < self.head.local_count {
            self.set_local(n + 1, Value::Unset);
        }
    }

    /// Unsets the other half of the long if local variable `n` is one half of it.
    #[inline(always)]
    #[tactic(auto, using(crate::proofs::Locals::long_parted))]
    fn part_long(&mut self, n: u16)
        requires { n < self.old.body.max_locals }
        ensures { self.new ≡ with_locals self.old (without_long_at n self.old.activation.locals) }
    {
        match self.local(n) {
            Value::Long(_) => self.unset_after(n),
            Value::Second => self.set_local(n.saturating_sub(1), Value::Unset),
            Value::Int(_)
            | Value::Null
            | Value::Reference(_)
            | Value::ReturnAddress(_)
            | Value::Unset => {}
        }
    }

    /// Stores a value of one slot in a local variable, and unsets the other half of a long that it overwrites.
    #[inline(always)]
    fn store_one(&mut self, n: u16, value: Value)
        requires { n < self.old.body.max_locals }
        ensures { self.new ≡ with_locals self.old
            (slice_set (without_long_at n self.old.activation.locals) n value) }
    {
        self.part_long(n);
        self.set_local(n, value);
    }

    /// Stores a long in local variables `n` and `n + 1`.
    #[inline(always)]
    fn store_long(&mut self, n: u16, long: i64)
        requires { n + 2 ≤ self.old.body.max_locals }
        ensures { self.new
            ≡ with_locals self.old (with_stored self.old.activation.locals n (value.Long long)) }
    {
        // The count is a 16-bit number.
        let last = self.head.body.max_locals - 1;
        prove!(n < last);
        let next = n + 1;
        self.part_long(n);
        self.part_long(next);
        self.set_local(n, Value::Long(long));
        self.set_local(next, Value::Second);
    }

    /// Stores a value in local variable `n`. A long takes `n` and `n + 1`.
    #[inline(always)]
    pub fn store(&mut self, n: u16, value: Value)
        requires { n + value_size value ≤ self.old.body.max_locals }
        ensures { self.new ≡ with_locals self.old (with_stored self.old.activation.locals n value) }
    {
        match value {
            Value::Long(long) => self.store_long(n, long),
            Value::Int(_)
            | Value::Second
            | Value::Null
            | Value::Reference(_)
            | Value::ReturnAddress(_)
            | Value::Unset => self.store_one(n, value),
        }
    }
}
