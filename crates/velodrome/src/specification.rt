//! Data of a specification: which methods are to be atomic.

use shared_data::shared::Text;

/// The methods that a line of a specification is about, by the class that declares them.
#[derive(Debug, PartialEq, Eq, Drop)]
pub enum Pattern {
    /// `*`: every method.
    All,
    /// `C.*`: every method of a class.
    Class {
        class: Text,
    },
    /// `C.m`: the methods of a class with one name.
    Named {
        class: Text,
        name: Text,
    },
    /// `C.m.D`: one method.
    Exactly {
        class: Text,
        name: Text,
        descriptor: Text,
    },
}

/// A line of a specification: `atomic P` or `plain P`.
#[derive(Debug, PartialEq, Eq, Drop)]
pub struct SpecificationLine {
    pub is_atomic: bool,
    pub pattern: Pattern,
}
