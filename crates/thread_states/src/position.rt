//! What the next event of a thread belongs to.

ghost use Rattle.std.specs.Prelude.{◌≡◌, true, is_some};

/// The transaction that a thread is in, and whether one of its open methods is atomic.
#[derive(Clone, Copy, Debug)]
pub struct ThreadPosition {
    /// The transaction that the thread is in.
    pub transaction: Option<u64>,
    /// `true` if one of its open methods is atomic.
    pub is_in_atomic: bool,
}

impl ThreadPosition {
    /// Decides whether the next event of the thread leaves its position unchanged.
    pub(crate) fn stays(self) -> bool
        ensures { result ≡ true → self.is_in_atomic ≡ is_some self.transaction }
    {
        match self.transaction {
            Some(_) => self.is_in_atomic,
            None => !self.is_in_atomic,
        }
    }
}
