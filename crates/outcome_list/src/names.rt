//! The names in outcomes, in the order of the outcomes.

ghost use Rattle.std.specs.Prelude.{◌≡◌, drop, OnOk, OnErr};
ghost use Rattle.outcome_list.specs.Names.{no_names, append_names, names_in, names_of};
ghost use Rattle.outcome_list.specs.Stored.{first, outcome_by, names_after};

use crate::kind::Kind;
use jvms_machine::machine::{BadCause, BlockedOn, Outcome, ThreadId};
use std::alloc::{AllocError, Global};
use std::marker::Model;

/// The names of outcomes: a list for each kind of name.
#[derive(Debug, Drop)]
pub(crate) struct Names {
    threads: Vec<ThreadId>,
    references: Vec<u32>,
    classes: Vec<usize>,
}

impl Model for Names {
    ghost use Rattle.outcome_list.specs.Names.{Names as Named};

    ghost Value = { Named };

    ghost view = { λ n. record {
      threads = n.threads.items;
      references = n.references.items;
      classes = n.classes.items;
    } };
}

impl Names {
    /// Returns an empty record of names.
    pub(crate) fn new(alloc: Global) -> Names
        ensures { result ≡ no_names }
    {
        Names {
            threads: Vec::new(alloc),
            references: Vec::new(alloc),
            classes: Vec::new(alloc),
        }
    }

    /// Appends the names in what a blocked thread waits for. If there is no memory, nothing changes.
    fn push_blocked(&mut self, on: BlockedOn) -> Result<(), AllocError>
        ensures ok { OnOk result (self.new ≡ append_names self.old (names_of on)) }
        ensures err { OnErr result (self.new ≡ self.old) }
    {
        self.threads.reserve(1)?;
        match on {
            BlockedOn::Monitor { reference, owner } => {
                self.references.push(reference)?;
                self.threads.push_reserved(owner);
            }
            BlockedOn::Initialisation { class, owner } => {
                self.classes.push(class)?;
                self.threads.push_reserved(owner);
            }
            BlockedOn::Join { thread } => self.threads.push_reserved(thread),
            BlockedOn::Wait { reference } => self.references.push(reference)?,
        }
        Ok(())
    }

    /// Appends the names in an outcome. If there is no memory, nothing changes.
    pub(crate) fn push(&mut self, outcome: Outcome) -> Result<(), AllocError>
        ensures ok { OnOk result (self.new ≡ append_names self.old (names_in outcome)) }
        ensures err { OnErr result (self.new ≡ self.old) }
    {
        match outcome {
            Outcome::Blocked { on } => self.push_blocked(on),
            _ => Ok(()),
        }
    }

    /// Returns all names, to be read from the first on.
    pub(crate) fn all(&self) -> NamesLeft<'_>
        ensures { result ≡ self.now }
    {
        NamesLeft {
            threads: self.threads.as_slice(),
            references: self.references.as_slice(),
            classes: self.classes.as_slice(),
        }
    }
}

/// Returns the Bad outcome with this cause.
fn bad(cause: BadCause) -> Outcome
    ensures { result ≡ Outcome.Bad cause }
{
    Outcome::Bad { cause }
}

/// The names that are still to be read.
#[derive(Drop)]
pub(crate) struct NamesLeft<'n> {
    threads: &'n [ThreadId],
    references: &'n [u32],
    classes: &'n [usize],
}

impl<'n> Model for NamesLeft<'n> {
    ghost use Rattle.outcome_list.specs.Names.{Names as Named};

    ghost Value = { Named };

    ghost view = { λ n. record {
      threads = n.threads.now;
      references = n.references.now;
      classes = n.classes.now;
    } };
}

impl<'n> NamesLeft<'n> {
    /// Removes the next thread and returns it.
    fn next_thread(&mut self) -> ThreadId
        ensures name { result ≡ first self.old.threads }
        ensures left { self.new ≡ record self.old { threads = drop 1 self.old.threads } }
    {
        let Some((thread, rest)) = self.threads.split_first() else {
            return 0;
        };
        self.threads = rest;
        *thread
    }

    /// Removes the next reference and returns it.
    fn next_reference(&mut self) -> u32
        ensures name { result ≡ first self.old.references }
        ensures left { self.new ≡ record self.old { references = drop 1 self.old.references } }
    {
        let Some((reference, rest)) = self.references.split_first() else {
            return 0;
        };
        self.references = rest;
        *reference
    }

    /// Removes the next class and returns it.
    fn next_class(&mut self) -> usize
        ensures name { result ≡ first self.old.classes }
        ensures left { self.new ≡ record self.old { classes = drop 1 self.old.classes } }
    {
        let Some((class, rest)) = self.classes.split_first() else {
            return 0;
        };
        self.classes = rest;
        *class
    }

    /// Returns the outcome of a kind with the next of these names, which it removes.
    pub(crate) fn next_outcome(&mut self, kind: Kind) -> Outcome
        ensures outcome { result ≡ outcome_by kind self.old }
        ensures left { self.new ≡ names_after kind self.old }
    {
        match kind {
            Kind::Ran => Outcome::Ran,
            Kind::Raised => Outcome::Raised,
            Kind::Last => Outcome::Ended { last: true },
            Kind::Ended => Outcome::Ended { last: false },
            Kind::NoThread => Outcome::NoThread,
            Kind::FellOff => bad(BadCause::FellOff),
            Kind::OutOfProfile => bad(BadCause::OutOfProfile),
            Kind::Depth => bad(BadCause::Depth),
            Kind::WrongKind => bad(BadCause::Kind),
            Kind::Local => bad(BadCause::Local),
            Kind::Monitor => {
                let reference = self.next_reference();
                let owner = self.next_thread();
                Outcome::Blocked {
                    on: BlockedOn::Monitor { reference, owner },
                }
            }
            Kind::Initialisation => {
                let class = self.next_class();
                let owner = self.next_thread();
                Outcome::Blocked {
                    on: BlockedOn::Initialisation { class, owner },
                }
            }
            Kind::Join => Outcome::Blocked {
                on: BlockedOn::Join {
                    thread: self.next_thread(),
                },
            },
            Kind::Wait => Outcome::Blocked {
                on: BlockedOn::Wait {
                    reference: self.next_reference(),
                },
            },
        }
    }
}
