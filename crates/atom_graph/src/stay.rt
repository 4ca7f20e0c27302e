//! How an event relates to its transaction.

ghost use Rattle.std.specs.Prelude.{◌≡◌};
ghost use Rattle.atom_graph.specs.StoredTrace.{stay_of};

/// The position of an event in its transaction: the first event, or a later one.
#[derive(Clone, Copy, Debug)]
pub(crate) enum Stay {
    /// The event is the first of its transaction, which stays open after it or not.
    Begins { is_open: bool },
    /// The event continues an open transaction.
    KeepsGoing,
}

impl Stay {
    /// Decides whether the next event of a thread begins a transaction or continues `current`. `is_in_atomic` says
    /// whether an atomic method of the thread is open.
    pub(crate) fn of(current: Option<u64>, is_in_atomic: bool) -> Self
        ensures { result ≡ stay_of current is_in_atomic }
    {
        match current {
            Some(_) => Stay::KeepsGoing,
            None => Stay::Begins {
                is_open: is_in_atomic,
            },
        }
    }
}
