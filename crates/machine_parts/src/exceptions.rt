//! Exceptions that the machine throws (JVMS 2.10).

ghost use Rattle.std.specs.Prelude.{◌≡◌, ◌+◌, ◌<◌, ◌^◌, IsTrue, Some, length, slice_get};
ghost use Rattle.std.specs.Option.{option_map};
ghost use Rattle.jvms_program.specs.BuiltIn.{built_in_classes};
ghost use Rattle.jvms_machine.specs.Exceptions.{thrown_class, has_room_for, exception_of, throws};
ghost use Rattle.machine_parts.specs.Decided.{decision_value};

use crate::decision::Decided;
use crate::parts::Parts;
use jvms_machine::action::{Action, Decision, Exception};
use jvms_program::thrown::Thrown;
use machine_thread::Thread;
use machine_thread::program::Program;

/// The `OutOfMemoryError` object that every heap has.
const OUT_OF_MEMORY: Exception = Exception::Existing { reference: 1 };

/// The `StackOverflowError` object that every heap has.
const STACK_OVERFLOW: Exception = Exception::Existing { reference: 2 };

/// Returns the index of an exception's class in the list of built-in classes.
#[tactic(auto, unfolding(jvms_program::specs::BuiltIn::built_in_classes, jvms_machine::specs::Exceptions::thrown_class))]
fn built_in_place(class: Thrown) -> usize
    ensures { option_map (λ c. c.name) (slice_get built_in_classes result)
        ≡ Some (thrown_class class) }
{
    match class {
        Thrown::ArithmeticException => 14,
        Thrown::ArrayStoreException => 15,
        Thrown::ClassCastException => 16,
        Thrown::IllegalMonitorStateException => 17,
        Thrown::NegativeArraySizeException => 21,
        Thrown::NullPointerException => 22,
        Thrown::ArrayIndexOutOfBoundsException => 23,
        Thrown::IllegalThreadStateException => 24,
        Thrown::NoClassDefFoundError => 27,
        Thrown::IncompatibleClassChangeError => 28,
        Thrown::UnsatisfiedLinkError => 29,
        Thrown::ExceptionInInitializerError => 30,
        Thrown::AbstractMethodError => 31,
        Thrown::InstantiationError => 32,
        Thrown::NoSuchFieldError => 33,
        Thrown::NoSuchMethodError => 34,
        Thrown::OutOfMemoryError => 35,
        Thrown::StackOverflowError => 36,
    }
}

/// Returns the number of an exception's class in a program. Every program has that class.
#[tactic(auto, using(crate::proofs::HeapLaws::named_there))]
pub fn thrown_number(program: &Program, class: Thrown) -> usize
    ensures { option_map (λ c. c.name) (slice_get program.now result) ≡ Some (thrown_class class) }
{
    program.program_invariant();
    built_in_place(class)
}

impl<'p> Parts<'p> {
    /// Decides whether the limits allow one more object.
    pub fn has_room(&self) -> bool
        ensures exact { result ≡ has_room_for 1 self.now.limits self.now.state }
        // One more reference fits 32 bits.
        ensures number { IsTrue result → length self.now.state.heap + 1 < 2 ^ 32 }
    {
        self.heap.count() < self.limits.objects as usize
    }

    /// Decides whether the limits allow `count` more objects.
    pub fn has_room_for(&self, count: usize) -> bool
        ensures exact { result ≡ has_room_for count self.now.limits self.now.state }
        // Each of their references fits 32 bits.
        ensures number { IsTrue result → length self.now.state.heap + count < 2 ^ 32 }
    {
        let most = self.limits.objects as usize;
        let existing = self.heap.count();
        existing <= most && count <= most - existing
    }

    /// Returns the object to throw for an exception's class. Without room for a new object it is the
    /// `OutOfMemoryError`.
    pub fn exception_of(&self, class: Thrown) -> Exception
        ensures { result ≡ exception_of self.now.limits self.now.state class }
    {
        match class {
            Thrown::OutOfMemoryError => OUT_OF_MEMORY,
            Thrown::StackOverflowError => STACK_OVERFLOW,
            _ => {
                if self.has_room() {
                    Exception::New(class)
                } else {
                    OUT_OF_MEMORY
                }
            }
        }
    }

    /// Returns the decision that a thread's turn throws an exception of this class.
    #[tactic(auto, unfolding(jvms_machine::specs::Exceptions::throws))]
    pub fn throws(&self, thread: &Thread, class: Thrown) -> Decided<'p>
        ensures { decision_value result ≡ throws self.now.limits self.now.state thread.now class }
    {
        let exception = self.exception_of(class);
        let action = if thread.height() == 0 {
            Action::Fails(exception)
        } else {
            Action::Raises(exception)
        };
        Decision::Applies(action)
    }
}
