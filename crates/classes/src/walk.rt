//! Searches up the superclasses of a class.

ghost use Rattle.std.specs.Prelude.{◌≡◌, ℕ, Option};
ghost use Rattle.jvms_program.specs.declared.program.Class.{Class};
ghost use Rattle.jvms_program.specs.Resolution.{chain, first_in};
ghost use Rattle.classes.specs.Places.{match_with_number};

use crate::chain::Chain;
use crate::list::Classes;
use jvms_program::program::Class;

/// A test for a match in one class. A match is the number of a class and of a member of it.
pub(crate) trait Look {
    ghost gives: { Self → ℕ → Class → Option (ℕ × ℕ) };

    /// Returns the match in the class of a number, if there is one.
    fn look(&self, number: usize, class: &Class) -> Option<(usize, usize)>
        ensures { result ≡ gives self.now number class.now };
}

/// Returns the first match in a class, its superclass, and so on.
pub(crate) fn first_up<L: Look>(program: &Classes, name: &[u16], look: &L) -> Option<(usize, usize)>
    ensures { result
        ≡ first_in (match_with_number program.now (L.gives look.now)) (chain program.now name.now) }
{
    let mut up = Chain::of(program, name);
    while let Some((number, class)) = up.next_class() {
        if let Some(found) = look.look(number, class) {
            return Some(found);
        }
    }
    None
}
