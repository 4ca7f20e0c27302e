//! Orders members by name, then by descriptor. Both are ordered by their units.

ghost use Rattle.std.specs.Prelude.{◌≡◌, IfOk, nat_eq};
ghost use Rattle.std.proofs.Common.{rules};
ghost use Rattle.std.specs.Cmp.{partial_order_from_own_ties};
ghost use Rattle.std.specs.Cmp.Rules.{comparing};
ghost use Rattle.std.specs.Cmp.Lexicographic.{slice_cmp, pointwise};
ghost use Rattle.std.specs.Ordering.{nat_cmp, on, then_cmp, as_partial_cmp, eq_by_cmp};

use shared_data::shared::Text;
use std::alloc::AllocError;
use std::cmp::Ordering;

/// The name and the descriptor of a member.
#[derive(Drop)]
pub(crate) struct Member {
    name: Text,
    descriptor: Text,
}

impl Member {
    /// Returns a member that shares both texts.
    pub(crate) fn new(name: &Text, descriptor: &Text) -> Result<Self, AllocError>
        ensures { IfOk result (λ m. m ≡ record { name = name.now; descriptor = descriptor.now }) }
    {
        Ok(Member {
            name: name.share()?,
            descriptor: descriptor.share()?,
        })
    }
}

impl Ord for Member {
    ghost cmp = { then_cmp (on (λ m. m.name) (slice_cmp nat_cmp))
        (on (λ m. m.descriptor) (slice_cmp nat_cmp)) };

    ghost total = { Prim.search (comparing, rules) };

    ghost matches_partial_cmp = { Prim.search (comparing, rules) };

    ghost matches_eq = { Prim.search (comparing, rules) };

    fn cmp(&self, other: &Member) -> Ordering {
        let names = self.name.as_slice().cmp(&other.name.as_slice());
        names.then(self.descriptor.as_slice().cmp(&other.descriptor.as_slice()))
    }
}

impl PartialOrd for Member {
    ghost partial_cmp = { as_partial_cmp (then_cmp (on (λ m. m.name) (slice_cmp nat_cmp))
        (on (λ m. m.descriptor) (slice_cmp nat_cmp))) };

    ghost laws = { partial_order_from_own_ties (Prim.search (comparing, rules))
        (Prim.search (comparing, rules)) };

    fn partial_cmp(&self, other: &Member) -> Option<Ordering> {
        Some(self.cmp(other))
    }
}

impl PartialEq for Member {
    ghost eq = { eq_by_cmp (then_cmp (on (λ m. m.name) (slice_cmp nat_cmp))
        (on (λ m. m.descriptor) (slice_cmp nat_cmp))) };

    ghost laws = { Prim.search (comparing, rules) };

    fn eq(&self, other: &Member) -> bool {
        self.cmp(other) == Ordering::Equal
    }
}

impl Eq for Member {
    ghost laws = { Prim.search (comparing, rules) };
}
