//! A link between two transactions.

use velodrome::verdict::ConflictingPair;

/// A link into a transaction, from another one. An event of that one is earlier than an event of this one, and they
/// conflict.
#[derive(Clone, Copy, Debug, PartialEq, Eq)]
pub struct Link {
    /// The transaction that it leads from.
    pub from: u64,
    /// The two events.
    pub pair: ConflictingPair,
}

/// A link that would close a cycle, with the rest of the cycle.
#[derive(Debug, Drop)]
pub struct Closing {
    /// The link itself.
    pub by: Link,
    /// The links of the cycle from where the link begins back to where it leads. Each leads into the transaction that
    /// the one before leads from.
    pub trail: Vec<Link>,
}
