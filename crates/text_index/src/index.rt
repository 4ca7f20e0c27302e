//! Maps texts to references of objects.

ghost use Rattle.std.specs.Prelude.{◌≡◌, ℕ, List, [], IfOk, OnOk, OnErr, Some, None, if◌then◌else◌};
ghost use Rattle.std.specs.Option.{option_or};
ghost use Rattle.jvms_file.specs.Names.{same_text};
ghost use Rattle.text_index.specs.Lookup.{indexed_reference};

mod removal;

use std::alloc::{AllocError, Global};
use std::collections::BTreeMap;
use std::marker::Model;

/// References by texts, in the order of the texts. Contracts see the list of both.
#[derive(Drop)]
pub struct Index {
    references: BTreeMap<Vec<u16>, u32>,
}

impl Model for Index {
    ghost use Rattle.std.specs.Prelude.{ℕ, List, map};

    ghost Value = { List (List ℕ × ℕ) };

    ghost view = { λ i. map (λ e. (e.0.items, e.1)) i.references.entries };
}

impl Index {
    /// Creates an empty index.
    pub fn new(alloc: Global) -> Index
        ensures { result ≡ [] }
    {
        Index {
            references: BTreeMap::new(alloc),
        }
    }

    /// Copies the index.
    pub fn copy(&self) -> Result<Index, AllocError>
        ensures { IfOk result (λ i. i ≡ self.now) }
    {
        Ok(Index {
            references: self.references.clone()?,
        })
    }

    /// Returns the reference of a text.
    #[tactic(auto, using(crate::proofs::IndexLaws::found_among))]
    pub fn find(&self, units: &[u16]) -> Option<u32>
        ensures { result ≡ indexed_reference self.now units.now }
    {
        self.references.get(units).copied()
    }

    /// Stores a reference for a text. Without memory nothing changes.
    fn put_new(&mut self, alloc: Global, units: &[u16], reference: u32) -> Result<(), AllocError>
        ensures ok { OnOk result ((q : List ℕ) → indexed_reference self.new q
            ≡ (if same_text units.now q then Some reference else indexed_reference self.old q)) }
        ensures err { OnErr result (self.new ≡ self.old) }
    {
        let key = Vec::from_slice(alloc, units)?;
        self.references.insert(key, reference)?;
        Ok(())
    }

    /// Stores a reference for a text, unless the text has one. Without memory nothing changes.
    #[tactic(auto, using(crate::proofs::IndexLaws::put_first, crate::proofs::IndexLaws::put_again))]
    pub fn put(&mut self, alloc: Global, units: &[u16], reference: u32) -> Result<(), AllocError>
        ensures ok { OnOk result ((q : List ℕ) → indexed_reference self.new q
            ≡ option_or (indexed_reference self.old q)
            (if same_text units.now q then Some reference else None)) }
        ensures err { OnErr result (self.new ≡ self.old) }
    {
        if self.find(units).is_some() {
            return Ok(());
        }
        self.put_new(alloc, units, reference)
    }
}
