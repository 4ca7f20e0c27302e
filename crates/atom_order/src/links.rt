//! The links into one transaction.

ghost use Rattle.std.specs.Prelude.{◌≡◌, ◌++◌, [], OnOk, OnErr};

use crate::link::Link;
use std::alloc::{AllocError, Global};
use std::marker::Model;

/// The links into a transaction. Contracts see them as a list.
#[derive(Debug, Drop)]
pub struct Links {
    links: Vec<Link>,
}

impl Model for Links {
    ghost use Rattle.std.specs.Prelude.{List};
    ghost use Rattle.atom_order.specs.declared.link.Link.{Link};

    ghost Value = { List Link };

    ghost view = { λ a. a.links.items };
}

impl Links {
    /// Returns an empty list of links.
    pub fn new(alloc: Global) -> Self
        ensures { result ≡ [] }
    {
        Links {
            links: Vec::new(alloc),
        }
    }

    /// Wraps a list of links.
    pub fn from_vec(links: Vec<Link>) -> Self
        ensures { result ≡ links.items }
    {
        Links { links }
    }

    /// Returns the links in order.
    pub fn as_slice(&self) -> &[Link]
        ensures { result.now ≡ self.now }
    {
        self.links.as_slice()
    }

    /// Appends links. Without memory for them nothing changes.
    pub fn append(&mut self, more: &[Link]) -> Result<(), AllocError>
        ensures ok { OnOk result (self.new ≡ self.old ++ more.now) }
        ensures err { OnErr result (self.new ≡ self.old) }
    {
        if more.is_empty() {
            return Ok(());
        }
        self.links.extend_from_slice(more)
    }
}
