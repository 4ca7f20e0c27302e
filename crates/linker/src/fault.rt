//! Why class files aren't linked.

ghost use Rattle.std.specs.Prelude.{◌≡◌};
ghost use Rattle.linker.specs.declared.fault.LinkFault.TheVariants.{Memory};

use std::alloc::{AllocError, AllocFailed};
use thiserror::Error;

/// The reason why class files aren't linked. A class is given by its file's place in the list, from 0.
#[derive(Clone, Copy, Debug, PartialEq, Eq, Error)]
pub enum LinkFault {
    /// K05: the class has the name of a built-in class.
    #[error("K05 BuiltInName")]
    BuiltInName { class: usize },
    /// K01: the class has the name of one before it.
    #[error("K01 RepeatedClass")]
    RepeatedClass { class: usize },
    /// K02: the superclass or a superinterface of the class isn't there.
    #[error("K02 MissingSuper")]
    MissingSuper { class: usize },
    /// K03: the class is its own superclass or superinterface, over one or more steps.
    #[error("K03 Circular")]
    Circular { class: usize },
    /// K04: the superclass or a superinterface of the class is of a wrong kind. The class has no superclass, or that is
    /// an interface, or String, Class, System or PrintStream. Or a superinterface is a class. Or the class is an
    /// interface and extends another class than `java/lang/Object`.
    #[error("K04 SuperKind")]
    SuperKind { class: usize },
    /// K06: memory ran out.
    #[error("K06 Memory")]
    Memory,
}

impl From<AllocError> for LinkFault {
    ghost from_gives = { λ _ fault. fault ≡ Memory };

    fn from(_error: AllocError) -> LinkFault {
        LinkFault::Memory
    }
}

impl<T: Drop> From<AllocFailed<T>> for LinkFault {
    ghost from_gives = { λ _ fault. fault ≡ Memory };

    fn from(_error: AllocFailed<T>) -> LinkFault {
        LinkFault::Memory
    }
}
