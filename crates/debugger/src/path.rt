//! Choices to walk along.

ghost use Rattle.std.specs.Prelude.{◌≡◌, ◌<◌, ◌==◌, length, slice_index};

use jvms_machine::machine::ThreadId;
use std::marker::Model;

/// Borrowed choices in two parts. Contracts see one list.
#[derive(Drop)]
pub(crate) struct Path<'a> {
    pub(crate) before: &'a [ThreadId],
    pub(crate) after: &'a [ThreadId],
}

impl<'a> Model for Path<'a> {
    ghost use Rattle.std.specs.Prelude.{ℕ, List, ◌++◌};

    ghost Value = { List ℕ };

    ghost view = { λ p. p.before.now ++ p.after.now };
}

impl<'a> Path<'a> {
    /// Returns the choice at a position.
    pub(crate) fn at(&self, position: usize) -> ThreadId
        requires { position < length self.now }
        ensures { result ≡ slice_index self.now position }
    {
        let count = self.before.len();
        if position < count {
            self.before[position]
        } else {
            self.after[position - count]
        }
    }

    /// Returns whether the choice at a position is thread t.
    pub(crate) fn is_at(&self, position: usize, t: ThreadId) -> bool
        requires { position < length self.now }
        ensures { result ≡ (slice_index self.now position == t) }
    {
        self.at(position) == t
    }
}
